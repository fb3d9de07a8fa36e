//! What lies beyond the program (files, streams, targets, clocks) counts its faults, so that a caller who is told of one
//! can be believed. Here stand the words for such counts, and the list of calls that a device in memory is to fail.
#![tactic(auto)]

mod failing_calls;

pub use failing_calls::FailingCalls;
