//! Closed formulas of the plane: where figures meet, rounded to the grid.
#![tactic(auto)]

mod circles;
mod feet;
mod lines;
mod picks;
mod rounds;
mod scale;
mod tangents;

pub use circles::{circle_circle, circle_circle_point, line_circle, line_circle_point};
pub use feet::{foot, foot_point, parallel_at, ray, ray_point};
pub use lines::{line_line, line_line_point};
pub use rounds::{circle_of, circle_three, circle_through, circle_touching, corner};
pub use scale::Wide;
pub use tangents::{tangent_from, tangent_two};

/// Why a formula gives no figure.
#[derive(Clone, Copy, Debug, PartialEq, Eq)]
pub enum FormFault {
    /// The figure leaves the coordinate limit.
    OutOfRange,
    /// The given figures determine none.
    Degenerate,
    /// The given figures don't meet.
    NoMeeting,
    /// The circle is too large.
    TooLarge,
}
