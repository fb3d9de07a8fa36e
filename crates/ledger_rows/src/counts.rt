//! How many entries stand where.

/// The numbers of a report that are of entries. `entries` is the sum of the others.
#[derive(Debug, Clone, Copy, PartialEq, Eq)]
pub struct EntryCounts {
    pub entries: u64,
    pub done: u64,
    pub finals: u64,
    pub attempts: u64,
    pub age: u64,
    pub cancelled: u64,
    pub waiting: u64,
    pub due: u64,
    pub live: u64,
    pub exhausted: u64,
}
