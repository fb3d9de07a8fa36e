ghost use Rattle.std.specs.Prelude.{◌≡◌};
ghost use Rattle.durable_book.specs.declared.denial.Denial.TheVariants as denials;
ghost use Rattle.durable_book.specs.Faults.{complete_denial, IsOfCompleting};

use crate::denial::Denial;
use sched_plain::Why;

/// Why a schedule is not removed.
#[derive(Debug, Clone, Copy, PartialEq, Eq)]
pub enum CompleteFault {
    /// It is not finished, or is not to be deleted when it is.
    NotYet,
    /// There is no room: the file ends at `end`, and `need` bytes more are needed.
    Full { end: u64, need: u64 },
    /// A call of the disk failed.
    DiskFault,
    /// There was no memory.
    OutOfMemory,
}

/// What is said where a Complete is denied. It breaks no rule but that the schedule is not finished.
pub(crate) fn complete_fault(denial: Denial) -> CompleteFault
    ensures told { IsOfCompleting denial → complete_denial result ≡ denial }
    ensures disk { complete_denial result ≡ denials.DiskFault → denial ≡ denials.DiskFault }
{
    match denial {
        Denial::Rule(Why::NotComplete) => CompleteFault::NotYet,
        Denial::Full { end, need } => CompleteFault::Full { end, need },
        Denial::DiskFault => CompleteFault::DiskFault,
        Denial::OutOfMemory => CompleteFault::OutOfMemory,
        // Never of a Complete.
        Denial::Rule(_) => CompleteFault::NotYet,
    }
}
