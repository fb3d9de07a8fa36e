use crate::outcome::{Outcome, Reason};

/// Where an entry stands at a moment; the first of these that holds.
#[derive(Debug, Clone, Copy, PartialEq, Eq)]
pub enum Standing {
    /// Nothing more is done for it.
    Decided(Outcome),
    /// Its last attempt is live.
    Live,
    /// It is to be given up.
    Exhausted(Reason),
    /// The next attempt may begin at `until`, in seconds since 1970 UTC.
    Waiting { until: u64 },
    /// The next attempt may begin.
    Due,
}
