//! The records of a CL file, as what they say.
#![tactic(auto)]

mod record;
mod vertices;

pub use record::{Note, Position, Reach, Record};
pub use vertices::{VertexSlice, Vertices};
