/// How an entry was decided.
#[derive(Debug, Clone, Copy, PartialEq, Eq)]
pub enum Outcome {
    Done,
    Final,
    /// As many attempts as are allowed were begun.
    Attempts,
    /// The entry's age was passed.
    Age,
    /// Its schedule was deleted first.
    Cancelled,
}

/// Why an entry is given up.
#[derive(Debug, Clone, Copy, PartialEq, Eq)]
pub enum Reason {
    Attempts,
    Age,
}
