//! Cron schedules: whether a civil minute fits the sets of a cron expression, and the first minute
//! that does from a given second on.
//!
//! Civil time is what a clock and a calendar on a wall show, in the Gregorian calendar from 1970 to
//! 2199; no zone is known here. The fields and their special values are those of EventBridge
//! Scheduler's cron expressions (EventBridge Scheduler User Guide, "Schedule types"). Both calls are
//! exact for every set that the types can hold, and neither takes memory. What fits is defined in
//! `specs/Fit`, what a search answers in `specs/Search`.
#![tactic(auto)]

mod bits;
mod calendar;
mod date;
mod day_rule;
mod search;
mod single_days;
mod time;
mod week;
mod years;

pub use search::{matches, next_civil};
