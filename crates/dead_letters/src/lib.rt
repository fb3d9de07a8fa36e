//! Dead letters, a list for each queue in the order in which they came.
//!
//! `add` takes no memory: what it needs was made by `reserve`, for so many letters of one queue. A page of a queue costs
//! what it shows; a queue is found in the logarithm of how many there are. Nothing is taken out.
#![tactic(auto)]

mod page;
mod pile;
mod piles;
mod queues;

pub use queues::DeadLetters;
