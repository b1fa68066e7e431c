//! The figures that names stand for, and the forms that define them.
#![tactic(auto)]

mod circles;
mod definitions;
mod figure;
mod lines;
mod numbers;
mod points;
mod table;

pub use definitions::{DefError, define, define_as, figure_of};
pub use figure::Figure;
pub use numbers::is_in_reach;
pub use table::{Table, point, surface};
