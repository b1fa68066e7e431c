//! Outlines: the edges, bosses and bores that a cutter keeps clear of, and where it does not.
#![tactic(auto)]

mod bounds;
mod boxes;
mod cause;
mod cutter;
mod edges;
mod feet;
mod figures;
mod fractions;
mod line;
mod motions;
mod parts;
mod products;
mod reader;
mod rounds;
mod split;

pub use cause::{OutlineCause, OutlineError};
pub use cutter::reaches;
pub use motions::guard;
pub use parts::{Gouge, Part, Reach};
pub use reader::outline;
pub use split::guard_split;
