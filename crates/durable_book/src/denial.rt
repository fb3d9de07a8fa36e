use sched_plain::Why;

/// Why a step is not added.
#[derive(Debug, Clone, Copy, PartialEq, Eq)]
pub enum Denial {
    /// The first rule that the step breaks.
    Rule(Why),
    /// The step may follow and has no room: the file ends at `end`, and it needs `need` bytes more.
    Full { end: u64, need: u64 },
    /// A call of the disk failed.
    DiskFault,
    /// There was no memory.
    OutOfMemory,
}
