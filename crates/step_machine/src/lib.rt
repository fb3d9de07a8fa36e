//! What a machine of steps promises: it judges whether a step may follow what happened, takes it, and answers what the
//! history says.
//!
//! `Machine` is a trait, so that what stands on it opens no body: it says for which histories a machine stands, and what each
//! call tells of them. It is promised of all eleven kinds of step, under the calendar of real time zones.
#![tactic(auto)]

mod machine;

pub use book_parts::LegalFault;
pub use machine::Machine;
