use sched_calls::{Refusal, Reply};
use sched_plain::{Step, ZoneName};

/// What is to be done with a write.
#[derive(Debug, Drop)]
pub enum Plan {
    /// It breaks a rule.
    Refused(Refusal),
    /// The same write was accepted before under its token, and was answered so.
    Known(Reply),
    /// The zone of its content has no bytes yet.
    NeedsZone(ZoneName),
    /// An incarnation that it touches has occurrences without an entry: the least such one.
    CatchUp { inc: u32 },
    /// Nothing stands in its way: its Change.
    Ready(Step),
}
