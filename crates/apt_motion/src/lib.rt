//! The compiling pass: the records of the steps of a part program, or the first step that is refused.
#![tactic(auto)]

mod acts;
mod arcs;
mod counting;
mod dividing;
mod drafts;
mod filling;
mod records;
mod runs;

pub use runs::{RunError, ends, run};
