ghost use Rattle.std.specs.Prelude.{◌≡◌};
ghost use Rattle.durable_book.specs.Faults.{grow_denial, IsOfGrowing};

use crate::denial::Denial;

/// Why a step that may follow is not added.
#[derive(Debug, Clone, Copy, PartialEq, Eq)]
pub enum GrowFault {
    /// There is no room: the file ends at `end`, and `need` bytes more are needed.
    Full { end: u64, need: u64 },
    /// A call of the disk failed.
    DiskFault,
    /// There was no memory.
    OutOfMemory,
}

/// What is said where a step that breaks no rule is denied.
pub fn grow_fault_of(denial: Denial) -> GrowFault
    requires { IsOfGrowing denial }
    ensures { grow_denial result ≡ denial }
{
    match denial {
        Denial::Full { end, need } => GrowFault::Full { end, need },
        Denial::DiskFault => GrowFault::DiskFault,
        Denial::OutOfMemory => GrowFault::OutOfMemory,
        Denial::Rule(_) => unreachable!(),
    }
}
