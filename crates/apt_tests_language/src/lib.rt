//! Tests of symbols and names that no run of the program shows.
#![tactic(auto)]

#[cfg(test)]
mod words;
