//! What reads are answered from the parts of a book: a schedule, a group, an occurrence with its attempts, and pages of
//! schedules, groups and dead letters.
//!
//! `reply` answers just what the definitions say of a legal history that the parts stand for: the first rule that the read
//! breaks, or what it shows. Its calls only look, and take memory for the answer alone. A read of one thing costs a search,
//! a page a search and its rows.
#![tactic(auto)]

mod executions;
mod groups;
mod letters;
mod reading;
mod refusals;
mod schedules;

pub use reading::reply;
