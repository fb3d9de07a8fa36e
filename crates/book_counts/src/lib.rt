//! The numbers of a report, told by the parts of a book: how many steps, schedules, groups, entries and dead letters there
//! are, and how many entries stand where at a moment.
//!
//! Nothing is kept here. The entries are counted as they stand, the dead letters by their queues, and the rest is read off.
#![tactic(auto)]

mod report;

pub use report::counts;
