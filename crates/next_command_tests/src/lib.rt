//! Tests of `next_command` by its public face: questions over zones in memory, and the text that is told.
#![tactic(auto)]

#[cfg(test)]
mod asking;
#[cfg(test)]
mod faults;
#[cfg(test)]
mod instants;
