//! What the text of a part comes to: its steps, and their records, or why it has none.
#![tactic(auto)]

mod part;

pub use part::{Part, PartError, part_of, steps_of};
