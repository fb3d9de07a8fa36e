ghost use Rattle.std.specs.Prelude.{◌≡◌};
ghost use Rattle.durable_writes.specs.Leading.{write_fault};

use durable_book::GrowFault;
use sched_calls::Refusal;

/// Why a write is not accepted.
#[derive(Debug, Drop)]
pub enum WriteFault {
    /// It breaks a rule, and nothing was added.
    Refused(Refusal),
    /// There is no room for its next step: the file ends at `end`, and `need` bytes more are needed.
    Full { end: u64, need: u64 },
    /// A call of the disk failed.
    DiskFault,
    /// A call of the source of zones failed, and nothing was added.
    ZoneFailed,
    /// There was no memory.
    OutOfMemory,
}

/// What is told of a write where a step of it is not added.
pub(crate) fn write_fault(fault: GrowFault) -> WriteFault
    ensures { result ≡ write_fault fault }
{
    match fault {
        GrowFault::Full { end, need } => WriteFault::Full { end, need },
        GrowFault::DiskFault => WriteFault::DiskFault,
        GrowFault::OutOfMemory => WriteFault::OutOfMemory,
    }
}
