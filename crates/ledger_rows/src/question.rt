//! What is asked of an entry.

/// What the contracts ask of an entry.
#[derive(Debug, Clone, Copy)]
pub enum Question {
    /// Whether its chosen moment has come, and it is exhausted or due.
    ToAct { now: u64 },
    /// Whether its last attempt is live, and it is not decided.
    ToWait,
}
