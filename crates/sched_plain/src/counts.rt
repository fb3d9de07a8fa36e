/// The numbers of a report. `entries` is the sum of the nine numbers from `done` to `exhausted`.
#[derive(Debug, Clone, Copy, PartialEq, Eq)]
pub struct Counts {
    /// The moment of the last step, in seconds since 1970 UTC.
    pub moment: u64,
    pub steps: u64,
    pub schedules: u64,
    pub groups: u64,
    pub entries: u64,
    pub done: u64,
    pub finals: u64,
    pub attempts: u64,
    pub age: u64,
    pub cancelled: u64,
    pub waiting: u64,
    pub due: u64,
    pub live: u64,
    pub exhausted: u64,
    pub letters: u64,
}
