//! Where courses stop: on which side of their stop they run, whether they lead to it, and where surfaces touch.
#![tactic(auto)]

mod course;
mod decisions;
mod gaps;
mod legs;
mod nearness;
mod sides;
mod tangencies;
mod touches;

pub use course::{Choice, Course};
pub use decisions::{axis, decide, kept_side, stop_side};
pub use gaps::is_touching;
pub use legs::{Ends, Legs, decide_legs, near_stop};
pub use nearness::{heading, is_near, side_of};
pub use tangencies::{axis_towards, tangent_axis};
