//! The next work of a shard by dates: the next instant of each incarnation, since when it is finished, and its
//! first entries that give work. What is searched for over a whole history is found by these alone.
//!
//! Each is a theorem that stands on a function with no parameters and an empty body: its `ensures` is the fact, and the
//! call does nothing.
#![tactic(auto)]

mod dates;
mod finished;
mod first_entries;
mod living;
mod revisions;

pub use dates::work_is_by_dates;
pub use finished::steps_change_the_finished_date;
pub use first_entries::first_entries_are_found;
pub use living::only_living_schedules_act;
pub use revisions::{changes_open_nothing, entries_follow_revisions};
