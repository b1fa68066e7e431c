//! Patterns of points and drill cycles: the plain steps in the place of steps that name patterns and drill.
#![tactic(auto)]

mod bare;
mod cycle;
mod drilling;
mod expanding;
mod pattern;
mod patterns;
mod places;

pub use bare::are_undrilled;
pub use cycle::Cycle;
pub use expanding::expand;
pub use pattern::Pattern;
