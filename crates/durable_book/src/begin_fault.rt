ghost use Rattle.std.specs.Prelude.{◌≡◌};
ghost use Rattle.durable_book.specs.Faults.{begin_denial, IsOfBeginning};

use crate::denial::Denial;
use sched_plain::{Standing, Why};

/// Why an attempt is not begun.
#[derive(Debug, Clone, Copy, PartialEq, Eq)]
pub enum BeginFault {
    /// The shard has another epoch, which is told.
    Stale { epoch: u64 },
    /// The entry is not due: it stands so.
    NotDue(Standing),
    /// There is no room: the file ends at `end`, and `need` bytes more are needed.
    Full { end: u64, need: u64 },
    /// A call of the disk failed.
    DiskFault,
    /// There was no memory.
    OutOfMemory,
}

/// What is said where the Begin of an entry's next attempt is denied. It breaks no rule but those of the epoch and of
/// the standing.
pub(crate) fn begin_fault(denial: Denial) -> BeginFault
    requires { IsOfBeginning denial }
    ensures { begin_denial result ≡ denial }
{
    match denial {
        Denial::Rule(Why::Stale { epoch }) => BeginFault::Stale { epoch },
        Denial::Rule(Why::Standing(standing)) => BeginFault::NotDue(standing),
        Denial::Full { end, need } => BeginFault::Full { end, need },
        Denial::DiskFault => BeginFault::DiskFault,
        Denial::OutOfMemory => BeginFault::OutOfMemory,
        Denial::Rule(_) => unreachable!(),
    }
}
