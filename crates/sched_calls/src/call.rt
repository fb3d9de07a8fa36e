use crate::read::Read;
use sched_plain::Write;

/// What a request asks for.
#[derive(Debug, Drop)]
pub enum Call {
    Write(Write),
    Read(Read),
    /// All shards are to be swept.
    Sweep,
}
