//! The bytes of a CL file: how they are made of records, and how records are read from them.
#![tactic(auto)]

mod bytes;
mod entries;
mod error;
mod fields;
mod reading;
mod words;
mod writing;

pub use error::{ClCause, ClError};
pub use reading::{Head, first_record, read_head};
pub use writing::{ClBytes, write};
