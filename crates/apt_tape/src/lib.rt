//! What the acts, the run and the bytes of a tape are on a machine. Its table says whether a leg round a circle is one
//! arc, and nothing above asks that again.
#![tactic(auto)]

mod act;
mod comparison;
mod plan;
mod reader;
mod run;
mod tape;

pub use act::TapeAct;
pub use comparison::Comparison;
pub use plan::counts_on;
pub use reader::Reader;
pub use run::{Taker, TapeRun};
pub use tape::Tape;
