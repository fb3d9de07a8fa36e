//! Civil time as numbers: the seconds since 1970-01-01T00:00:00 of a civil second, the civil second
//! so many seconds after it, and whether a civil date and time is a real one.
//!
//! Civil time is what a calendar and a clock on a wall show, in the Gregorian calendar from 1970 to
//! 2199; no zone is known here, and no clock is ever changed. Read in UTC these seconds are moments.
//! Which part of a date and time is at fault is defined in `specs/Checked`. No call takes memory.
#![tactic(auto)]

mod civil_fault;
mod civil_seconds;
mod library;
mod numbers;
mod real_civil;

pub use civil_fault::CivilFault;
pub use civil_seconds::{civil_at, second_of};
pub use library::library_time;
pub use numbers::one_civil_second_each;
pub use real_civil::checked;
