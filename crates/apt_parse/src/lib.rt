//! The part program of a text.
#![tactic(auto)]

mod names;
mod program;
mod read;

pub use apt_lexis::{ParseError, PartCause};
pub use program::parse;
