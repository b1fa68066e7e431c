//! Where the targets of a motion meet: whether, exactly, and at which point of the grid.
#![tactic(auto)]

mod contacts;
mod meetings;

pub use contacts::contact;
pub use meetings::meet;

/// How two targets meet.
#[derive(Clone, Copy, Debug, PartialEq, Eq)]
pub enum Meeting {
    /// They are parallel lines, or circles about one centre.
    Parallel,
    /// They have no common point.
    Apart,
    /// They have one: two lines, or a touch.
    One,
    /// They have two.
    Two,
}
