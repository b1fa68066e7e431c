//! Courses: legs before they are cut.

use apt_num::Sign;
use apt_offset::Target;
use apt_plane::{Axis, Pt, Surface};
use apt_words::Stop;

/// One leg of a contour before it is cut: where it starts, along which drive surface, with the cutter's centre on which
/// track and in which sense (1 along a line's direction or anticlockwise round a circle, -1 the other way), and how it
/// stops at which check surface, with the target of its stop.
#[derive(Clone, Copy)]
pub struct Course {
    pub start: Pt,
    pub drive: Surface,
    pub track: Target,
    pub sense: i8,
    pub check: Surface,
    pub how: Stop,
    pub stop: Target,
}

/// How a course ends: the side of its stop on which it runs, `Plus` left of a line and inside a circle, `Zero` where it
/// touches its check surface; its last point; and where it touches, the axis on which it ends.
#[derive(Clone, Copy)]
pub struct Choice {
    pub side: Sign,
    pub end: Pt,
    pub axis: Option<Axis>,
}
