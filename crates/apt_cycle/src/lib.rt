//! Drill cycles: what blocks mean on a machine with them, the reader of its tapes, and their writer.
#![tactic(auto)]

mod block;
mod given;
mod hole;
mod left;
mod poster;
mod reading;
mod window;

use apt_control::ControlReader;
pub use left::CycleBytes;
pub use poster::CyclePoster;
pub use reading::CycleHeld;

/// A tape of a machine with drill cycles whose bytes come in pieces. At the start it is given `CycleHeld::new`.
pub type CycleReader = ControlReader<CycleHeld>;
