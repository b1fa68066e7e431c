//! The store of named files and the sink of lines that the program works on, and their forms in memory.
#![tactic(auto)]

pub mod files;
pub mod memory;
pub mod pieces;
mod reading;
pub mod shelf;
pub mod sink;
mod step;
mod store;
pub mod sure;
pub mod tally;

pub use files::{ReadError, read_all, read_piece};
pub use memory::{Calls, FailList, MemShelf, ShelfCalls};
pub use pieces::{Pieces, write_all};
pub use shelf::{ReadStart, Shelf, ShelfFault, Sink};
pub use sink::MemSink;
pub use sure::SureShelf;
pub use tally::Tally;
