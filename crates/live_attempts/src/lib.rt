//! The live attempts of a legal history: each is among those in the air, and each wants a step more to end.
//!
//! Each is a theorem that stands on a function with no parameters and an empty body: its `ensures` is the fact, and the
//! call does nothing.
#![tactic(auto)]

mod air;
mod counts;

pub use air::live_attempts_are_aloft;
pub use counts::live_attempts_are_few;
