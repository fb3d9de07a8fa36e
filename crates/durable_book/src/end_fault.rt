ghost use Rattle.std.specs.Prelude.{◌≡◌};
ghost use Rattle.durable_book.specs.Faults.{IsOfEnding, ended_for};

use crate::denial::Denial;

/// Why an attempt is not ended.
#[derive(Debug, Clone, Copy, PartialEq, Eq)]
pub enum EndFault {
    /// The attempt is not live; the epoch of its shard is told.
    Stale { epoch: u64 },
    /// A call of the disk failed.
    DiskFault,
}

/// What is said where an End is denied, in a shard of this epoch. It wants neither room nor memory.
pub(crate) fn end_fault(denial: Denial, epoch: u64) -> EndFault
    requires { IsOfEnding denial }
    ensures { result ≡ ended_for denial epoch }
{
    match denial {
        Denial::Rule(_) => EndFault::Stale { epoch },
        Denial::DiskFault => EndFault::DiskFault,
        Denial::Full { .. } => unreachable!(),
        Denial::OutOfMemory => unreachable!(),
    }
}
