//! The schedules, their revisions and the groups, as a list of accepted changes makes them.
//!
//! `Rows` stands for such a list: what it answers is read off the list by the definitions of sched_plain and
//! sched_calls, and each change that is applied adds one to the list. A change is checked, then given room, then
//! applied without memory. A row stays when its schedule ends; what lives is found by indexes over the living alone.
//! Which occurrences a schedule has, and what became of them, is known elsewhere; tokens are not looked at.
#![tactic(auto)]

mod by_name;
mod by_number;
mod edge;
mod faults;
mod group_lists;
mod groups;
mod lists;
mod order;
mod row;
mod rows;
mod schedules;

pub use row::KeptRow;
pub use rows::Rows;
