//! Points, lines and circles of the plane, in grid units, and all points of a segment against them.
#![tactic(auto)]

mod figures;
mod order;
mod rings;
mod segments;
pub mod vectors;

pub use figures::{Axis, Band, Circ, Dir, Line, Moved, Pt, Spot, Surface};
pub use order::{before, by_sense};
pub use rings::{nearer_foot, segment_in_ring};
pub use segments::{segment_in_line_band, segment_over, segment_under};
