//! How the entries that are not decided stand.
ghost use Rattle.std.specs.Prelude.{◌≡◌, ◌≤◌, ◌<◌, []};
ghost use Rattle.ledger_rows.specs.Tallying.{open_counts, with_standing, together, sum_of, counts_by, AreUpTo};

use crate::counts::EntryCounts;
use crate::tally::Tally;
use sched_plain::Standing;

/// How many of the entries that are not decided stand where.
#[derive(Debug, Clone, Copy, PartialEq, Eq)]
pub struct OpenCounts {
    pub waiting: u64,
    pub due: u64,
    pub live: u64,
    pub exhausted: u64,
}

/// The counts of no entries.
pub fn no_counts() -> OpenCounts
    ensures { result ≡ open_counts [] }
{
    OpenCounts {
        waiting: 0,
        due: 0,
        live: 0,
        exhausted: 0,
    }
}

/// The counts with one entry more.
pub fn with_standing(counts: OpenCounts, standing: Standing) -> OpenCounts
    requires { AreUpTo 9223372036854775808 counts }
    ensures { result ≡ with_standing standing counts }
{
    match standing {
        Standing::Decided(_) => counts,
        Standing::Live => OpenCounts {
            live: counts.live + 1,
            ..counts
        },
        Standing::Exhausted(_) => OpenCounts {
            exhausted: counts.exhausted + 1,
            ..counts
        },
        Standing::Waiting { .. } => OpenCounts {
            waiting: counts.waiting + 1,
            ..counts
        },
        Standing::Due => OpenCounts {
            due: counts.due + 1,
            ..counts
        },
    }
}

/// The counts with others.
pub fn together(some: OpenCounts, others: OpenCounts) -> OpenCounts
    requires { AreUpTo 9223372036854775808 (together some others) }
    ensures { result ≡ together some others }
{
    OpenCounts {
        waiting: some.waiting + others.waiting,
        due: some.due + others.due,
        live: some.live + others.live,
        exhausted: some.exhausted + others.exhausted,
    }
}

/// The numbers of entries, of the decided ones and of the others.
pub fn counts_by(tally: Tally, others: OpenCounts) -> EntryCounts
    requires { sum_of tally others ≤ 9223372036854775808 }
    ensures { result ≡ counts_by tally others }
{
    EntryCounts {
        entries: tally.done
            + tally.finals
            + tally.attempts
            + tally.age
            + tally.cancelled
            + others.waiting
            + others.due
            + others.live
            + others.exhausted,
        done: tally.done,
        finals: tally.finals,
        attempts: tally.attempts,
        age: tally.age,
        cancelled: tally.cancelled,
        waiting: others.waiting,
        due: others.due,
        live: others.live,
        exhausted: others.exhausted,
    }
}
