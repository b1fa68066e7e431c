//! The values of expressions, and what names mean.
#![tactic(auto)]

mod names;
mod scalars;
mod stack;
mod values;

pub use names::{Bound, Env, Frame, Kind, Value, bind, bound_in};
pub use scalars::{grid_units, tenths, whole};
pub use values::eval;
