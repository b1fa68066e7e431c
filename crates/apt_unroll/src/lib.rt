//! The steps of a part program.
#![tactic(auto)]

mod calls;
mod numbers;
mod places;
mod run;
mod trace;

pub use trace::{Unrolled, unroll};
