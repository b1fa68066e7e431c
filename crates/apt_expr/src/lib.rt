//! Expressions as lists of tokens.
#![tactic(auto)]

mod forest;
mod parts;
mod reading;

pub use reading::expression;
