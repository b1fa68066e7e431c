//! Tests of the calls over a whole CL file, which the program reads and writes in pieces.
#![tactic(auto)]

#[cfg(test)]
mod cldata;
