//! Effects.

use crate::Motion;
use apt_defs::Figure;
use apt_records::{Note, Position, Reach};
use apt_stop::Legs;
use apt_words::{Side, Symbol};

/// What a step sets: what a note says, the side of the cutter, or nothing.
#[derive(Drop)]
pub enum Change {
    Said(Note),
    Side(Side),
    Nothing,
}

/// What a contour cuts: its motion from where the tool stands, in so many legs.
#[derive(Clone, Copy)]
pub struct Cut {
    pub motion: Motion,
    pub legs: Legs,
}

/// What a step asks for.
#[derive(Drop)]
pub enum Effect {
    /// A name is defined.
    Defines(Symbol, Figure),
    /// The settings change, with at most one record.
    Sets(Change),
    /// The position moves.
    Moves(Reach, Position),
    /// A contour is cut, with so many legs.
    Cuts(Motion, Legs),
}
