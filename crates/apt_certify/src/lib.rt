//! The certificate of contour motions.
#![tactic(auto)]

mod deviations;
mod distances;
mod gate;
mod judge;
mod leg;
mod onwards;
mod segments;
mod split;
mod verdict;
mod ways;

pub use gate::{Gate, OpenGate};
pub use judge::{check_jobs, merged};
pub use leg::{Job, Leg, Points};
pub use split::check_jobs_split;
pub use verdict::{Bad, Reason, Verdict};
