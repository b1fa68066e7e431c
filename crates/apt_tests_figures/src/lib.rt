//! Tests of figures, of where they meet, of the division of arcs, and of where start-ups end and motions stop.
#![tactic(auto)]

#[cfg(test)]
mod arc;
#[cfg(test)]
mod canon;
#[cfg(test)]
mod contact;
#[cfg(test)]
mod defs;
#[cfg(test)]
mod offset;
#[cfg(test)]
mod outline;
#[cfg(test)]
mod rows;
#[cfg(test)]
mod startup;
#[cfg(test)]
mod stop;
