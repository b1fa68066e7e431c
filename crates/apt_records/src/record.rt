//! Records.

use crate::vertices::Vertices;
use apt_plane::{Pt, Surface};
use apt_words::{Command, Side, Stop, Text, Units};

/// A point and its height, in grid units.
#[derive(Clone, Copy, PartialEq, Eq)]
pub struct Position {
    pub xy: Pt,
    pub z: i64,
}

/// The origin.
impl Default for Position {
    fn default() -> Position {
        Position {
            xy: Pt { x: 0, y: 0 },
            z: 0,
        }
    }
}

/// How a position is reached: set by FROM, or moved to.
#[derive(Clone, Copy, PartialEq, Eq)]
pub enum Reach {
    From,
    Goto,
    Godlta,
    Start,
}

/// What a statement says that is no motion: lengths in grid units, the feed in tenths of a length unit per
/// minute, a command in whole numbers, the spindle's 0 with `Off`.
#[derive(Drop)]
pub enum Note {
    Partno(Text),
    Units(Units),
    Cutter(i64),
    Intol(i64),
    Outtol(i64),
    Feed(i64),
    Do(Command),
    Rapid,
    End,
    Fini,
}

/// A record of a CL file. The sense of a drive is 1 along a line's direction or anticlockwise round a circle,
/// -1 the other way.
#[derive(Drop)]
pub enum Record {
    /// The line and the number of the step that the records behind it belong to, both from 1.
    Statement {
        line: u32,
        step: u32,
    },
    /// A setting, a command, or the end.
    Note(Note),
    /// A drive surface, the cutter's side of it, and the sense of the motion.
    Drive {
        surface: Surface,
        side: Side,
        sense: i8,
    },
    /// A check surface, and where the motion stops at it.
    Check {
        surface: Surface,
        how: Stop,
    },
    /// A position that is reached.
    Point(Reach, Position),
    /// The vertices of a contour.
    Contour(Vertices),
}
