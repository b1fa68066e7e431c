//! The words that part programs, acts and machines share.
#![tactic(auto)]

mod ask;
mod body;
mod commands;
mod contour;
mod deed;
mod drill;
mod expr;
mod names;
mod postfix;
mod symbol;
mod word;

pub use ask::{Ask, CircleForm, Form, LineForm, Place, PointForm, Route, Saying};
pub use body::{Args, Body, Exprs, Params, Program, Stmt, Text, Xy};
pub use contour::Contouring;
pub use deed::{Deed, Step};
pub use drill::Drill;
pub use expr::{Expr, Node, Op};
pub use postfix::{Item, Millionths, Postfix};
pub use symbol::{Symbol, is_vocabulary};
pub use word::{Word, word_of};

/// The unit of a part program: a grid unit is 0.00001 inch or 0.0001 millimetre.
#[derive(Clone, Copy, Debug, PartialEq, Eq)]
pub enum Units {
    Inch,
    Mm,
}

/// How the spindle turns, seen from above the work.
#[derive(Clone, Copy, Debug, PartialEq, Eq)]
pub enum Turn {
    Cw,
    Ccw,
    Off,
}

/// The coolant.
#[derive(Clone, Copy, Debug, PartialEq, Eq)]
pub enum Cool {
    Mist,
    Flood,
    Off,
}

/// A command to the machine. How often the spindle turns in a minute, and the number of a tool, are in millionths where a
/// statement gives them, and whole numbers in records and acts.
#[derive(Clone, Copy, PartialEq, Eq)]
pub enum Command {
    /// The spindle turns so often in a minute, or stands still.
    Spindle(Turn, i64),
    /// The coolant.
    Coolant(Cool),
    /// The tool of a number.
    Tool(i64),
    /// The machine stops.
    Stop,
    /// The machine stops where its operator wants it.
    OptStop,
}

/// The side of the cutter, seen along the motion.
#[derive(Clone, Copy, Debug, PartialEq, Eq)]
pub enum Side {
    Left,
    Right,
    On,
}

/// The turn at the start of a contour motion, seen along the motion before it.
#[derive(Clone, Copy, Debug, PartialEq, Eq)]
pub enum Go {
    Left,
    Right,
    Forward,
    Back,
}

/// Where the cutter stops at a check surface.
#[derive(Clone, Copy, Debug, PartialEq, Eq)]
pub enum Stop {
    To,
    On,
    Past,
    Tanto,
}

/// Which of two figures is meant: the one of the greater or smaller x or y.
#[derive(Clone, Copy, Debug, PartialEq, Eq)]
pub enum Pick {
    XLarge,
    XSmall,
    YLarge,
    YSmall,
}

/// Why a step of a part program is refused.
#[derive(Clone, Copy, Debug, PartialEq, Eq)]
pub enum Case {
    /// It would be step 200,001.
    Budget,
    /// Another statement than FINI stands behind END.
    AfterEnd,
    /// A name has no value.
    Unknown,
    /// A quotient by 0.
    DivideByZero,
    /// The root of a negative value.
    NegativeRoot,
    /// A result of more than 1,000,000 in size.
    TooLarge,
    /// A jump in no loop and no macro, or out of its own.
    JumpOutside,
    /// A call of a macro that is not there.
    NoSuchMacro,
    /// The ninth open call.
    Depth,
    /// Arguments that don't fit their macro, or the definition of a parameter.
    BadArgs,
    /// A name stands for nothing.
    Undefined,
    /// A name stands for another kind.
    WrongKind,
    /// A count of meetings other than 1 and 2.
    BadCount,
    /// A number beyond its limits.
    OutOfRange,
    /// A figure without extent or direction.
    Degenerate,
    /// Curves of a definition that don't meet.
    NoMeeting,
    /// A circle that reaches too far from an axis.
    CircleTooLarge,
    /// A feed above the machine's greatest.
    FeedTooLarge,
    /// A speed above the machine's greatest.
    SpindleTooLarge,
    /// A tool number above the machine's greatest.
    ToolTooLarge,
    /// FROM where the tool has a position.
    FromAgain,
    /// A motion where the tool has no position.
    NoFrom,
    /// A cut without a feed.
    NoFeed,
    /// A contour behind RAPID.
    RapidContour,
    /// A contour with both tolerances under a grid step.
    TooFine,
    /// A turn that has no sense at the start.
    NoTurn,
    /// The cutter does not fit within a circle.
    NoRoom,
    /// The start is off the track.
    OffDrive,
    /// The cutter stands on the surface before which, or behind which, it is to stop.
    OnCheck,
    /// Lines that don't meet, circles about one centre, or a line that is to touch a line.
    Parallel,
    /// Surfaces that don't touch.
    NotTangent,
    /// A circle that misses the other surface.
    NoContact,
    /// Two legs round a circle, from a start near the stop.
    FullTurn,
    /// The stop is not ahead.
    Behind,
    /// The contours of the program would have too many points.
    TooManyPoints,
    /// The patterns and cycles of the program would visit too many points. No step is refused by it yet.
    TooManyHoles,
}

/// The first step of a part program that is refused: its line, its number, both from 1, and the case.
#[derive(Clone, Copy, Debug, PartialEq, Eq)]
pub struct Refusal {
    pub line: u32,
    pub step: u32,
    pub case: Case,
}
