//! How often the loops over a request go round: at most once a byte of it.
//!
//! The query of a request is gone over pair by pair, and the objects of its body member by member. Each fact stands on a function
//! with an empty body: its `ensures` is the fact, and the call does nothing.
#![tactic(auto)]

mod turns;

pub use turns::{members_are_few, pairs_are_few};
