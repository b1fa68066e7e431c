//! Tests of the store over real files, and of standard output.
#![tactic(auto)]

#[cfg(test)]
mod folder;
