//! The arguments of statements, and the shapes of geometric definitions.
#![tactic(auto)]

pub mod arguments;
pub mod figures;
