ghost use Rattle.std.specs.Prelude.{◌≡◌};
ghost use Rattle.durable_book.specs.Faults.{close_denial, grow_denial};

use crate::grow_fault::GrowFault;
use sched_plain::Standing;

/// Why an entry is not closed.
#[derive(Debug, Clone, Copy, PartialEq, Eq)]
pub enum CloseFault {
    /// The entry is not exhausted: it stands so.
    Open(Standing),
    /// There is no room: the file ends at `end`, and `need` bytes more are needed.
    Full { end: u64, need: u64 },
    /// A call of the disk failed.
    DiskFault,
    /// There was no memory.
    OutOfMemory,
}

/// What is said where the Close of an exhausted entry is not kept.
pub(crate) fn close_fault(fault: GrowFault) -> CloseFault
    ensures { close_denial result ≡ grow_denial fault }
{
    match fault {
        GrowFault::Full { end, need } => CloseFault::Full { end, need },
        GrowFault::DiskFault => CloseFault::DiskFault,
        GrowFault::OutOfMemory => CloseFault::OutOfMemory,
    }
}
