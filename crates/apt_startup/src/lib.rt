//! Where start-ups end: on one surface or on two, lines or circles.
#![tactic(auto)]

mod nearest;
mod start_up;

use apt_plane::{Pt, Surface};
use apt_words::Stop;
pub use start_up::start;

/// A surface of a start-up, and how the cutter stops there.
#[derive(Clone, Copy)]
pub struct Goal {
    pub how: Stop,
    pub surface: Surface,
}

/// A start-up: from a position to a surface, or to two, by a cutter's radius in grid units.
#[derive(Clone, Copy)]
pub struct StartUp {
    pub start: Pt,
    pub first: Goal,
    pub second: Option<Goal>,
    pub radius: i64,
}
