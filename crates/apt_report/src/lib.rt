//! The answers of the program, their numbers and their printed lines.
#![tactic(auto)]

mod acts;
mod line;
mod points;
mod status;

pub use acts::{act_lines, arc_lines, push_lines};
pub use apt_block::TapeCause;
pub use apt_certify::{Bad, Reason, Verdict};
pub use apt_cldata::ClCause;
pub use apt_lexis::PartCause;
pub use apt_machine::MachineCause;
pub use apt_outline::{Gouge, OutlineCause};
pub use line::line_of;
pub use points::{PointLines, listing};
pub use status::{FileName, Miss, Status, Summary};
