//! What a machine's control takes: its tape code, its sequence numbers and its limits, and the table that says so.
#![tactic(auto)]

mod cause;
mod draft;
mod key;
mod line;
mod machine;
mod number;
mod reader;
mod version;

pub use cause::{MachineCause, MachineError};
pub use machine::Machine;
pub use number::number_within;
pub use reader::table;
