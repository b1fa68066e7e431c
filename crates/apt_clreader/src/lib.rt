//! The records of a CL file whose bytes come in pieces.
#![tactic(auto)]

mod reader;
mod state;

pub use reader::read;
pub use state::ClReader;
