ghost use Rattle.std.specs.Prelude.{◌≡◌};
ghost use Rattle.durable_book.specs.declared.denial.Denial.TheVariants as denials;
ghost use Rattle.durable_book.specs.Faults.{swept_denial, IsOfSweeping};

use crate::denial::Denial;
use sched_plain::{Why, Work};

/// Why a shard is not marked as swept.
#[derive(Debug, Clone, Copy, PartialEq, Eq)]
pub enum SweptFault {
    /// This is to be done there next.
    Again(Work),
    /// There is no room: the file ends at `end`, and `need` bytes more are needed.
    Full { end: u64, need: u64 },
    /// A call of the disk failed.
    DiskFault,
    /// There was no memory.
    OutOfMemory,
}

/// What is said where a Swept is denied. It breaks no rule but that there is work.
pub(crate) fn swept_fault(denial: Denial) -> SweptFault
    ensures told { IsOfSweeping denial → swept_denial result ≡ denial }
    ensures disk { swept_denial result ≡ denials.DiskFault → denial ≡ denials.DiskFault }
{
    match denial {
        Denial::Rule(Why::Work(work)) => SweptFault::Again(work),
        Denial::Full { end, need } => SweptFault::Full { end, need },
        Denial::DiskFault => SweptFault::DiskFault,
        Denial::OutOfMemory => SweptFault::OutOfMemory,
        // Never of a Swept.
        Denial::Rule(_) => SweptFault::Again(Work::Settled),
    }
}
