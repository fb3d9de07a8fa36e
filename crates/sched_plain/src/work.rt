use crate::outcome::Reason;

/// The next thing to do in a shard.
#[derive(Debug, Clone, Copy, PartialEq, Eq)]
pub enum Work {
    /// This incarnation has an occurrence without an entry.
    Enter {
        inc: u32,
    },
    /// This entry is to be given up.
    Close {
        inc: u32,
        instant: u64,
        reason: Reason,
    },
    /// An attempt of this entry is due.
    Begin {
        inc: u32,
        instant: u64,
    },
    /// This incarnation is finished, and its action is DELETE.
    Complete {
        inc: u32,
    },
    /// Nothing but the end of this entry's live attempt is awaited.
    Live {
        inc: u32,
        instant: u64,
    },
    /// Nothing is left to do.
    Settled,
}
