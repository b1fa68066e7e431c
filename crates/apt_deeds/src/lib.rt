//! What each statement does where it is executed.
#![tactic(auto)]

mod arguments;
mod deeds;
mod figures;
mod statements;

pub use deeds::{bind_behind, deed_of};
