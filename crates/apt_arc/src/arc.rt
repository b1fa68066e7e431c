//! What is divided.

use apt_plane::{Circ, Dir, Pt};

/// An arc before it is divided, in grid units.
#[derive(Clone, Copy)]
pub struct Arc {
    /// The circle that it runs along.
    pub track: Circ,
    /// 1 anticlockwise, -1 clockwise.
    pub sense: i8,
    /// The direction of one of the quarter points from the centre.
    pub axis: Dir,
    /// How far chords may lie inside of the track.
    pub sag: i64,
    pub start: Pt,
    pub end: Pt,
}
