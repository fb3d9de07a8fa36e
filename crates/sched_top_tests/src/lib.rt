//! Tests of `sched_top` by its public face: runs over devices in memory, from bytes to bytes.
//!
//! A table is a text of lines: a request, and below it, behind four blanks, its answer.
#![tactic(auto)]

#[cfg(test)]
mod boto;
#[cfg(test)]
mod examples;
#[cfg(test)]
mod framing;
#[cfg(test)]
mod refusals;
#[cfg(test)]
mod retries;
#[cfg(test)]
mod routes;
#[cfg(test)]
mod runs;
#[cfg(test)]
mod sweeps;
#[cfg(test)]
mod texts;
#[cfg(test)]
mod zones;
