//! Tests of tape codes, blocks, controls and tapes.
#![tactic(auto)]

#[cfg(test)]
mod block;
#[cfg(test)]
mod circular;
#[cfg(test)]
mod control;
#[cfg(test)]
mod post;
#[cfg(test)]
mod rows;
#[cfg(test)]
mod tapecode;
