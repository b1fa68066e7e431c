//! Tests of what several threads do at one time, and of what a gate is told.
#![tactic(auto)]

#[cfg(test)]
mod gates;
#[cfg(test)]
mod runs;
