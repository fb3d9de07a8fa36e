//! A worker takes a shard.
ghost use Rattle.std.specs.Prelude.{◌≡◌, ◌+◌, ◌<◌, ◌≤◌, IfOk, IfErr, IfSome};
ghost use Rattle.sched_plain.specs.History.{History};
ghost use Rattle.sched_plain.specs.Leases.{holder};
ghost use Rattle.step_keeper.specs.Carrying.{Carries};
ghost use Rattle.durable_book.specs.Acts.{Adds, Refuses, IsCause, DiskRose};
ghost use Rattle.durable_book.specs.Doubts.{IsOwnDoubt, IsLeft};
ghost use Rattle.durable_book.specs.Faults.{lease_denial};
ghost use Rattle.durable_book.specs.Steps.{lease_of};

use crate::adding::{add, mend};
use crate::lease_fault::{LeaseFault, lease_fault};
use sched_plain::{LAST_MOMENT, LEASE_SECONDS, Moment, SHARDS, Step};
use step_keeper::Keeper;
use step_machine::Machine;

/// The epoch of the next taking of a shard. None past 2^64 - 1, which wants more steps than there is memory for.
fn next_epoch<M: Machine>(machine: &M, shard: u8) -> Option<u64>
    requires { shard < SHARDS }
    ensures { IfSome result (λ epoch. (h : History) → M.stands machine.now h → epoch ≡ (holder h shard).epoch + 1) }
{
    machine.holder(shard).epoch.checked_add(1)
}

/// A worker takes a shard for a minute, and its new epoch is answered. `Held` comes exactly where another worker's lease
/// lasts past the moment.
pub fn lease<K: Keeper>(
    keeper: &mut K,
    at: Moment,
    shard: u8,
    worker: u32,
) -> Result<u64, LeaseFault>
    requires moment { at.0 ≤ LAST_MOMENT }
    requires later { K.latest keeper.old ≤ at.0 }
    requires shard { shard < SHARDS }
    ensures leased { IfOk result (λ epoch. Carries (K.held keeper.old) (K.stands keeper.new)
        (Adds (K.doubt keeper.old) (λ h. lease_of h at.0 shard worker) (λ h. epoch ≡ (holder h shard).epoch + 1))) }
    ensures refused { IfErr result (λ fault. Carries (K.held keeper.old) (K.held keeper.new)
        (Refuses (K.doubt keeper.old) (λ h. IsCause (K.full keeper.new) (lease_of h at.0 shard worker) (lease_denial fault) h))) }
    ensures left { worker ≡ 0 → IsOwnDoubt (K.doubt keeper.old) → IfErr result (λ fault. IsLeft (lease_denial fault) (K.doubt keeper.new)) }
    ensures disk { IfErr result (λ fault. DiskRose (K.faults keeper.old) (K.faults keeper.new) (lease_denial fault)) }
    ensures latest { K.latest keeper.new ≤ at.0 }
    ensures faults { K.faults keeper.old ≤ K.faults keeper.new }
{
    if let Err(_) = mend(keeper) {
        return Err(LeaseFault::DiskFault);
    }
    let Some(epoch) = next_epoch(keeper.book(), shard) else {
        return Err(LeaseFault::OutOfMemory);
    };
    let step = Step::Lease {
        at,
        shard,
        worker,
        epoch,
        until: at.0 + LEASE_SECONDS,
    };
    if let Err(denial) = add(keeper, step) {
        return Err(lease_fault(denial));
    }
    Ok(epoch)
}
