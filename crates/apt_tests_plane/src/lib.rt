//! Tests of whole numbers and of the plane.
#![tactic(auto)]

#[cfg(test)]
mod num;
#[cfg(test)]
mod plane;
#[cfg(test)]
mod rows;
