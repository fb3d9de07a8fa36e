//! A worker renews its lease of a shard.
ghost use Rattle.std.specs.Prelude.{◌≡◌, ◌+◌, ◌<◌, ◌≤◌, false, true, OnOk, IfOk, IfErr};
ghost use Rattle.sched_plain.specs.History.{History};
ghost use Rattle.sched_plain.specs.Leases.{holder, is_taker};
ghost use Rattle.step_keeper.specs.Carrying.{Carries, Lives};
ghost use Rattle.durable_book.specs.Acts.{Adds, Refuses, DiskRose};
ghost use Rattle.durable_book.specs.Causes.{IsUnrenewed};
ghost use Rattle.durable_book.specs.Doubts.{IsOwnDoubt, IsLeft};
ghost use Rattle.durable_book.specs.Faults.{hold_denial};
ghost use Rattle.durable_book.specs.Steps.{renewal_by};

use crate::adding::mend;
use crate::growing::add_lawful;
use crate::hold_fault::{HoldFault, renewal_fault};
use sched_plain::{LAST_MOMENT, LEASE_SECONDS, Moment, SHARDS, Step};
use step_keeper::Keeper;
use step_machine::Machine;

/// Whether a worker took a shard with this epoch as the last one; else the epoch of the shard.
fn taken_by<M: Machine>(machine: &M, shard: u8, worker: u32, epoch: u64) -> Result<(), u64>
    requires { shard < SHARDS }
    ensures taker { OnOk result ((h : History) → M.stands machine.now h → is_taker (holder h shard) worker epoch ≡ true) }
    ensures other { IfErr result (λ told. (h : History) → M.stands machine.now h → (is_taker (holder h shard) worker epoch ≡ false) × (told ≡ (holder h shard).epoch)) }
{
    let held = machine.holder(shard);
    if 0 < epoch && epoch == held.epoch && worker == held.worker {
        return Ok(());
    }
    Err(held.epoch)
}

/// A worker that took a shard with this epoch holds it for a minute more, and is answered until when. `Stale` comes exactly
/// where it is not the one that took it last, with this epoch.
pub fn renew<K: Keeper>(
    keeper: &mut K,
    at: Moment,
    shard: u8,
    worker: u32,
    epoch: u64,
) -> Result<u64, HoldFault>
    requires moment { at.0 ≤ LAST_MOMENT }
    requires later { K.latest keeper.old ≤ at.0 }
    requires shard { shard < SHARDS }
    requires lives { Lives (K.held keeper.old) }
    ensures renewed { IfOk result (λ until. Carries (K.held keeper.old) (K.stands keeper.new)
        (Adds (K.doubt keeper.old) (λ h. renewal_by at.0 shard worker epoch) (λ h. until ≡ at.0 + LEASE_SECONDS))) }
    ensures refused { IfErr result (λ fault. Carries (K.held keeper.old) (K.held keeper.new)
        (Refuses (K.doubt keeper.old) (IsUnrenewed (K.full keeper.new) at.0 shard worker epoch fault))) }
    ensures left { worker ≡ 0 → IsOwnDoubt (K.doubt keeper.old) → IfErr result (λ fault. IsLeft (hold_denial fault) (K.doubt keeper.new)) }
    ensures disk { IfErr result (λ fault. DiskRose (K.faults keeper.old) (K.faults keeper.new) (hold_denial fault)) }
    ensures latest { K.latest keeper.new ≤ at.0 }
    ensures faults { K.faults keeper.old ≤ K.faults keeper.new }
{
    if let Err(_) = mend(keeper) {
        return Err(HoldFault::DiskFault);
    }
    if let Err(epoch) = taken_by(keeper.book(), shard, worker, epoch) {
        return Err(HoldFault::Stale { epoch });
    }
    let until = at.0 + LEASE_SECONDS;
    let step = Step::Lease {
        at,
        shard,
        worker,
        epoch,
        until,
    };
    if let Err(fault) = add_lawful(keeper, step) {
        return Err(renewal_fault(fault));
    }
    Ok(until)
}
