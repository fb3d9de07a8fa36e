ghost use Rattle.std.specs.Prelude.{◌≡◌};
ghost use Rattle.durable_book.specs.declared.denial.Denial.TheVariants as denials;
ghost use Rattle.durable_book.specs.Faults.{grow_denial, hold_denial, IsOfHolding};

use crate::denial::Denial;
use crate::grow_fault::GrowFault;
use sched_plain::Why;

/// Why a worker's hold of a shard is not changed.
#[derive(Debug, Clone, Copy, PartialEq, Eq)]
pub enum HoldFault {
    /// The worker did not take the shard with this epoch as the last one; the shard's epoch is told.
    Stale { epoch: u64 },
    /// There is no room: the file ends at `end`, and `need` bytes more are needed.
    Full { end: u64, need: u64 },
    /// A call of the disk failed.
    DiskFault,
    /// There was no memory.
    OutOfMemory,
}

/// What is said where a shard's Release is denied. It breaks no rule but that the worker is not the last taker.
pub(crate) fn hold_fault(denial: Denial) -> HoldFault
    ensures told { IsOfHolding denial → hold_denial result ≡ denial }
    ensures disk { hold_denial result ≡ denials.DiskFault → denial ≡ denials.DiskFault }
{
    match denial {
        Denial::Rule(Why::Stale { epoch }) => HoldFault::Stale { epoch },
        Denial::Full { end, need } => HoldFault::Full { end, need },
        Denial::DiskFault => HoldFault::DiskFault,
        Denial::OutOfMemory => HoldFault::OutOfMemory,
        // Never of a Release.
        Denial::Rule(_) => HoldFault::Stale { epoch: 0 },
    }
}

/// What is said where a renewal by the last taker is not kept.
pub(crate) fn renewal_fault(fault: GrowFault) -> HoldFault
    ensures { hold_denial result ≡ grow_denial fault }
{
    match fault {
        GrowFault::Full { end, need } => HoldFault::Full { end, need },
        GrowFault::DiskFault => HoldFault::DiskFault,
        GrowFault::OutOfMemory => HoldFault::OutOfMemory,
    }
}
