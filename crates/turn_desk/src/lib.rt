//! One value that many threads take turns at, and what each of them knows of it.
//!
//! A `Desk` keeps the value. A thread steps with a `Seat`: it enters, which waits for its turn and hands the value out,
//! works on the value as it likes, and leaves, which gives the value back and lets the next one in. A value that is
//! `Recorded` means a list of entries that only grows, so a seat knows a beginning of that list, and which of the entries
//! its own turns added. Turns come in the order in which they were asked for. That a turn ever comes is not promised.
#![tactic(auto)]

mod desk;
mod known;
mod law;
mod pause;
mod plays;
mod recorded;
mod steps;

pub use desk::{Desk, Seat, Turn};
pub use known::{Gauge, Known, Reading, TurnTaken, View};
pub use recorded::Recorded;
