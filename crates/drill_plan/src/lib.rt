//! The plan of a drill, a run over memory that makes a large input from a number: which schedules it creates, when it
//! sweeps, what its target answers, and which words choose within windows.
//!
//! Promised is each of these, as a function of its number, so that a drill is the same on every machine. Nothing here
//! creates or sends anything.
#![tactic(auto)]

mod numbers;
mod schedules;

pub use numbers::{SWEEPS, status, sweep_moment, window_word};
pub use schedules::{Created, UPPER_NUMBER, schedule_of};
