//! Why a sweep stops, by the faults of the calls that add its steps. What it adds breaks no rule.
ghost use Rattle.std.specs.Prelude.{◌≡◌};
ghost use Rattle.durable_book.specs.declared.end_fault.EndFault.TheVariants as ends;
ghost use Rattle.durable_book.specs.declared.grow_fault.GrowFault.TheVariants as grows;
ghost use Rattle.durable_book.specs.Faults.{grow_denial, lease_denial, hold_denial, swept_denial, complete_denial, close_denial, begin_denial, end_denial, IsOfGrowing};

use durable_book::{
    BeginFault, CloseFault, CompleteFault, EndFault, GrowFault, HoldFault, LeaseFault, SweptFault,
};

/// Why a shard that no other worker holds is not taken.
pub(crate) fn lease_stop(fault: LeaseFault) -> GrowFault
    requires { IsOfGrowing (lease_denial fault) }
    ensures { grow_denial result ≡ lease_denial fault }
{
    match fault {
        LeaseFault::Held { .. } => unreachable!(),
        LeaseFault::Full { end, need } => GrowFault::Full { end, need },
        LeaseFault::DiskFault => GrowFault::DiskFault,
        LeaseFault::OutOfMemory => GrowFault::OutOfMemory,
    }
}

/// Why a shard is not given back by the worker that took it last.
pub(crate) fn hold_stop(fault: HoldFault) -> GrowFault
    requires { IsOfGrowing (hold_denial fault) }
    ensures { grow_denial result ≡ hold_denial fault }
{
    match fault {
        HoldFault::Stale { .. } => unreachable!(),
        HoldFault::Full { end, need } => GrowFault::Full { end, need },
        HoldFault::DiskFault => GrowFault::DiskFault,
        HoldFault::OutOfMemory => GrowFault::OutOfMemory,
    }
}

/// Why a shard that asks for nothing is not marked as swept.
pub(crate) fn swept_stop(fault: SweptFault) -> GrowFault
    requires { IsOfGrowing (swept_denial fault) }
    ensures { grow_denial result ≡ swept_denial fault }
{
    match fault {
        SweptFault::Again(_) => unreachable!(),
        SweptFault::Full { end, need } => GrowFault::Full { end, need },
        SweptFault::DiskFault => GrowFault::DiskFault,
        SweptFault::OutOfMemory => GrowFault::OutOfMemory,
    }
}

/// Why a finished schedule is not removed.
pub(crate) fn complete_stop(fault: CompleteFault) -> GrowFault
    requires { IsOfGrowing (complete_denial fault) }
    ensures { grow_denial result ≡ complete_denial fault }
{
    match fault {
        CompleteFault::NotYet => unreachable!(),
        CompleteFault::Full { end, need } => GrowFault::Full { end, need },
        CompleteFault::DiskFault => GrowFault::DiskFault,
        CompleteFault::OutOfMemory => GrowFault::OutOfMemory,
    }
}

/// Why an exhausted entry is not closed.
pub(crate) fn close_stop(fault: CloseFault) -> GrowFault
    requires { IsOfGrowing (close_denial fault) }
    ensures { grow_denial result ≡ close_denial fault }
{
    match fault {
        CloseFault::Open(_) => unreachable!(),
        CloseFault::Full { end, need } => GrowFault::Full { end, need },
        CloseFault::DiskFault => GrowFault::DiskFault,
        CloseFault::OutOfMemory => GrowFault::OutOfMemory,
    }
}

/// Why an attempt that is due is not begun.
pub(crate) fn begin_stop(fault: BeginFault) -> GrowFault
    requires { IsOfGrowing (begin_denial fault) }
    ensures { grow_denial result ≡ begin_denial fault }
{
    match fault {
        BeginFault::Stale { .. } => unreachable!(),
        BeginFault::NotDue(_) => unreachable!(),
        BeginFault::Full { end, need } => GrowFault::Full { end, need },
        BeginFault::DiskFault => GrowFault::DiskFault,
        BeginFault::OutOfMemory => GrowFault::OutOfMemory,
    }
}

/// Why an attempt that is in the air is not ended.
pub(crate) fn end_stop(fault: EndFault) -> GrowFault
    requires { fault ≡ ends.DiskFault }
    ensures told { grow_denial result ≡ end_denial fault }
    ensures disk { result ≡ grows.DiskFault }
{
    match fault {
        EndFault::Stale { .. } => unreachable!(),
        EndFault::DiskFault => GrowFault::DiskFault,
    }
}
