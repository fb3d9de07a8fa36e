use crate::standing::Standing;
use crate::work::Work;
use plain_words::Moment;

/// Why a write does not fit the schedules and groups that are there.
#[derive(Debug, Clone, Copy, PartialEq, Eq)]
pub enum RowFault {
    /// The group `default` cannot be deleted.
    DefaultGroup,
    /// The group is not there.
    NoGroup,
    /// The group is there already.
    GroupExists,
    /// The schedule is not there.
    Missing,
    /// The schedule is there already.
    Exists,
    /// A limit is reached; `count` is how many there are.
    TooMany { count: u64 },
}

/// Why a step may not follow a history: the first of these rules that it breaks.
#[derive(Debug, Clone, Copy, PartialEq, Eq)]
pub enum Why {
    /// The step's moment is below the history's last one; a Boot's is not that one.
    MomentBack { last: Moment },
    /// The zone has bytes already, or is UTC.
    ZoneKnown,
    /// The content's zone has no bytes yet.
    ZoneUnknown,
    /// The bytes are no zone.
    BadZone,
    /// The write does not fit the schedules and groups.
    Row(RowFault),
    /// The token stands in an earlier change, at this place in the history, counted from 1.
    TokenKept { step: u64 },
    /// This occurrence has no entry.
    Unentered { inc: u32, instant: u64 },
    /// The first pair whose instant is not the next one without an entry.
    NotNext { instant: u64 },
    /// The first pair whose chosen moment is not in its window.
    OutsideWindow { instant: u64 },
    /// Another worker holds the shard.
    Held { worker: u32, until: u64 },
    /// The shard has another epoch, or another taker.
    Stale { epoch: u64 },
    /// The entry stands otherwise.
    Standing(Standing),
    /// So many attempts were begun, and the next number is one more.
    Number { used: u16 },
    /// The attempt is not live.
    NotLive,
    /// The schedule is not finished.
    NotComplete,
    /// The shard is not settled.
    Work(Work),
}
