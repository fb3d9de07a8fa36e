//! The next instant of each schedule that has no entry, and what each step makes of it: laws of every legal history,
//! over any calendar.
//!
//! Each is a theorem that stands on a function with no parameters and an empty body: its `ensures` is the fact, and the
//! call does nothing.
#![tactic(auto)]

mod comes;
mod follows;

pub use comes::next_instants_are_exact;
pub use follows::steps_change_the_next_instant;
