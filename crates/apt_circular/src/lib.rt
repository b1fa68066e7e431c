//! Circular blocks: the acts that records ask for on a machine that cuts a leg round a circle as one arc, what a circular
//! block means, the reader of tapes with such blocks, and their writer.
#![tactic(auto)]

mod arc;
mod counting;
mod instruction;
mod left;
mod plan;
mod planning;
mod poster;
mod reading;

use apt_control::{Act, ControlReader};
pub use counting::arc_counts;
pub use instruction::{CentreWay, Instruction};
pub use left::ArcBytes;
pub use plan::TapePlan;
pub use planning::{ArcPlan, Coming, Round, plan_arcs};
pub use poster::ArcPoster;
pub use reading::{ArcHeld, push_acts, push_plain, round_fault, taken_by, with_motion};

/// An act of a control that cuts arcs: a plain one, or an arc about a centre to a position, anticlockwise where
/// `turn` is 1 (G03), clockwise where it is -1 (G02). Coordinates are in grid units, the feed in tenths of an inch
/// or of a millimetre per minute.
#[derive(Clone, Copy, PartialEq, Eq)]
pub enum ArcAct {
    Plain(Act),
    Arc {
        turn: i8,
        x: i64,
        y: i64,
        z: i64,
        cx: i64,
        cy: i64,
        feed: i64,
    },
}

impl Default for ArcAct {
    fn default() -> ArcAct {
        ArcAct::Plain(Act::End)
    }
}

/// A tape of acts with arcs whose bytes come in pieces.
pub type ArcReader = ControlReader<ArcHeld>;
