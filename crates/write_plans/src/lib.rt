//! What is to be done with a write, decided from the history alone: it is refused, was answered before, waits for a zone or
//! for entries of what it touches, or its Change may follow.
//!
//! `plan_write` only looks at the parts of a book. `specs/Planning` says what it answers, and `specs/PlanLaws` what follows:
//! which step may follow then, and that each plan is part of one request served.
#![tactic(auto)]

mod laws;
mod naming;
mod plan;
mod planning;
mod refusals;
mod replying;

pub use laws::{plans_are_served, plans_say_what_follows};
pub use plan::Plan;
pub use planning::plan_write;
pub use refusals::zone_refusal;
pub use replying::reply_to;
