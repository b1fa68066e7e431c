//! Contours as their statements ask for them.

use crate::{Go, Side, Stop, Symbol};

/// The words of a contour, but for its count: along its drive surface, from a turn on, with the cutter on a side where the
/// statement sets one, until it stops at its check surface.
#[derive(Drop)]
pub struct Contouring {
    pub side: Option<Side>,
    pub go: Go,
    pub drive: Symbol,
    pub stop: Stop,
    pub check: Symbol,
}
