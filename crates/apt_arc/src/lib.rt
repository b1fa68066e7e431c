//! The division of an arc of a circle into chords: the vertices of the polygon that a tool's centre runs along in
//! place of the arc.
//!
//! Points and lengths are in grid units. An arc goes from a start to an end, both within three units of its
//! track. Its vertices are the quarter points of the track on the way (the points along an axis and square to
//! it), and between them midpoints of the track: a piece is halved until its chord lies nowhere further inside of
//! the track than the sag. Each list of vertices that is such a division is the one that [`chords`] appends.
//!
//! [`chords`] fails with [`ArcError::TooManyPoints`] exactly where the vertices are more than there is room for,
//! and with [`ArcError::NoMemory`] where memory runs out. [`count`] counts them, and takes no memory.
//! [`bound`] finds a number that they are not more than, from the ends of the pieces alone.
#![tactic(auto)]

mod arc;
mod bounds;
mod cuts;
mod division;
mod quarters;

pub use arc::Arc;
pub use division::{ArcError, bound, chords, count};
