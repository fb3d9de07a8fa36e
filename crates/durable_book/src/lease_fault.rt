ghost use Rattle.std.specs.Prelude.{◌≡◌};
ghost use Rattle.durable_book.specs.declared.denial.Denial.TheVariants as denials;
ghost use Rattle.durable_book.specs.Faults.{lease_denial, IsOfTaking};

use crate::denial::Denial;
use sched_plain::Why;

/// Why a shard is not taken.
#[derive(Debug, Clone, Copy, PartialEq, Eq)]
pub enum LeaseFault {
    /// Another worker holds it until then, in seconds since 1970 UTC.
    Held { worker: u32, until: u64 },
    /// There is no room: the file ends at `end`, and `need` bytes more are needed.
    Full { end: u64, need: u64 },
    /// A call of the disk failed.
    DiskFault,
    /// There was no memory.
    OutOfMemory,
}

/// What is said of a taking that is denied. It breaks no rule but that another worker holds the shard.
pub(crate) fn lease_fault(denial: Denial) -> LeaseFault
    ensures told { IsOfTaking denial → lease_denial result ≡ denial }
    ensures disk { lease_denial result ≡ denials.DiskFault → denial ≡ denials.DiskFault }
{
    match denial {
        Denial::Rule(Why::Held { worker, until }) => LeaseFault::Held { worker, until },
        Denial::Full { end, need } => LeaseFault::Full { end, need },
        Denial::DiskFault => LeaseFault::DiskFault,
        Denial::OutOfMemory => LeaseFault::OutOfMemory,
        // Never of a taking.
        Denial::Rule(_) => LeaseFault::Held {
            worker: 0,
            until: 0,
        },
    }
}
