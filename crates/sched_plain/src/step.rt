use crate::outcome::Reason;
use crate::write::Write;
use plain_words::{Blob, Items, Moment, TryCopy, Verdict, ZoneName};
use std::alloc::AllocError;

/// An occurrence as it is entered: its instant, and the moment from which on it may be sent.
#[derive(Debug, Clone, Copy, PartialEq, Eq)]
pub struct Pair {
    pub instant: u64,
    pub chosen: u64,
}

/// The pairs of one Enter step, in the order of their instants.
pub type Pairs = Items<Pair>;

impl TryCopy for Pair {
    fn copy(&self) -> Result<Pair, AllocError> {
        Ok(*self)
    }
}

/// One event of the service. A history is a list of steps, and their moments never fall.
#[derive(Debug, Drop)]
pub enum Step {
    /// The service was started: all leases are free and every live attempt is lost.
    Boot {
        at: Moment,
    },
    /// A zone's name has these bytes.
    Zone {
        at: Moment,
        name: ZoneName,
        bytes: Blob,
    },
    /// A write was accepted.
    Change {
        at: Moment,
        write: Write,
    },
    /// The next occurrences of an incarnation have ledger entries.
    Enter {
        at: Moment,
        inc: u32,
        pairs: Pairs,
    },
    /// A worker takes a shard with a new epoch, or renews it with the same epoch.
    Lease {
        at: Moment,
        shard: u8,
        worker: u32,
        epoch: u64,
        until: u64,
    },
    /// A worker gives a shard back.
    Release {
        at: Moment,
        shard: u8,
        worker: u32,
        epoch: u64,
    },
    /// An attempt begins; its number counts from 1.
    Begin {
        at: Moment,
        inc: u32,
        instant: u64,
        number: u16,
        epoch: u64,
    },
    /// An attempt has this verdict; the status is 0 where no reply could be read.
    End {
        at: Moment,
        inc: u32,
        instant: u64,
        number: u16,
        verdict: Verdict,
        status: u16,
    },
    /// An entry is given up.
    Close {
        at: Moment,
        inc: u32,
        instant: u64,
        reason: Reason,
    },
    /// A finished schedule whose action is DELETE is removed.
    Complete {
        at: Moment,
        inc: u32,
    },
    /// Nothing of the shard was left to do at this moment.
    Swept {
        at: Moment,
        shard: u8,
    },
}

impl TryCopy for Step {
    fn copy(&self) -> Result<Step, AllocError> {
        match self {
            Step::Zone { at, name, bytes } => Ok(Step::Zone {
                at: *at,
                name: name.copy()?,
                bytes: bytes.copy()?,
            }),
            Step::Change { at, write } => Ok(Step::Change {
                at: *at,
                write: write.copy()?,
            }),
            Step::Enter { at, inc, pairs } => Ok(Step::Enter {
                at: *at,
                inc: *inc,
                pairs: pairs.copy()?,
            }),
            Step::Boot { at } => Ok(Step::Boot { at: *at }),
            Step::Lease {
                at,
                shard,
                worker,
                epoch,
                until,
            } => Ok(Step::Lease {
                at: *at,
                shard: *shard,
                worker: *worker,
                epoch: *epoch,
                until: *until,
            }),
            Step::Release {
                at,
                shard,
                worker,
                epoch,
            } => Ok(Step::Release {
                at: *at,
                shard: *shard,
                worker: *worker,
                epoch: *epoch,
            }),
            Step::Begin {
                at,
                inc,
                instant,
                number,
                epoch,
            } => Ok(Step::Begin {
                at: *at,
                inc: *inc,
                instant: *instant,
                number: *number,
                epoch: *epoch,
            }),
            Step::End {
                at,
                inc,
                instant,
                number,
                verdict,
                status,
            } => Ok(Step::End {
                at: *at,
                inc: *inc,
                instant: *instant,
                number: *number,
                verdict: *verdict,
                status: *status,
            }),
            Step::Close {
                at,
                inc,
                instant,
                reason,
            } => Ok(Step::Close {
                at: *at,
                inc: *inc,
                instant: *instant,
                reason: *reason,
            }),
            Step::Complete { at, inc } => Ok(Step::Complete { at: *at, inc: *inc }),
            Step::Swept { at, shard } => Ok(Step::Swept {
                at: *at,
                shard: *shard,
            }),
        }
    }
}
