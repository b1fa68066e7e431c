//! The jobs of a CL file: whether its records answer the steps of a part program, and the contour motions that
//! they make.
#![tactic(auto)]

mod error;
mod fronts;
mod legs;
mod matches;
mod walk;

pub use error::JobError;
pub use walk::jobs;
