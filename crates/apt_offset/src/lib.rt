//! Where the cutter's centre goes: turns, targets, tolerance bands and their edges.
#![tactic(auto)]

mod edges;
mod sides;
pub mod signs;
mod targets;
mod turns;

use apt_plane::{Dir, Pt};
pub use edges::overruns;
pub use sides::{is_on_check, side_at_check, side_at_drive, side_or_left, touch_outside};
pub use targets::{band_at, lacks_room, offset_surface, signed};
pub use turns::{tangent, turn};

/// A surface moved for the cutter's radius: a line `off` grid units to its left, or a circle.
#[derive(Clone, Copy, Debug, PartialEq, Eq)]
pub enum Target {
    Line { base: Pt, dir: Dir, off: i64 },
    Circ { c: Pt, r: i64 },
}
