//! The figures of the plane.

use apt_num::Sign;

/// A point, in grid units.
#[derive(Clone, Copy, Debug, PartialEq, Eq)]
pub struct Pt {
    pub x: i64,
    pub y: i64,
}

/// A direction or a displacement: its parts are whole numbers of any scale.
#[derive(Clone, Copy, Debug, PartialEq, Eq)]
pub struct Dir {
    pub dx: i64,
    pub dy: i64,
}

/// The line through a base point in a direction.
#[derive(Clone, Copy, PartialEq, Eq)]
pub struct Line {
    pub base: Pt,
    pub dir: Dir,
}

/// A line moved `off` grid units to its left.
#[derive(Clone, Copy, PartialEq, Eq)]
pub struct Moved {
    pub line: Line,
    pub off: i64,
}

/// The circle about a centre, its radius in grid units.
#[derive(Clone, Copy, PartialEq, Eq)]
pub struct Circ {
    pub c: Pt,
    pub r: i64,
}

/// A drive or check surface.
#[derive(Clone, Copy, PartialEq, Eq)]
pub enum Surface {
    Line(Line),
    Circ(Circ),
}

/// A tolerance band, in grid units: of signed distances to the left of a line, or of distances from a centre.
#[derive(Clone, Copy, Debug, PartialEq, Eq)]
pub struct Band {
    pub lo: i64,
    pub hi: i64,
}

/// The axis on which a motion ends that touches its check surface: a point, a direction, and the half on which
/// the motion ends, `Zero` where it has none.
#[derive(Clone, Copy)]
pub struct Axis {
    pub through: Pt,
    pub along: Dir,
    pub half: Sign,
}

/// The point ((m - j) P + j Q) / m of a segment PQ.
#[derive(Clone, Copy, Debug, PartialEq, Eq)]
pub struct Spot {
    pub j: i128,
    pub m: i128,
}
