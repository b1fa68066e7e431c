//! Statements of part programs as lists of tokens.
#![tactic(auto)]

mod flow;
mod motions;
mod settings;
mod table;

pub use table::{Labelled, shape};
