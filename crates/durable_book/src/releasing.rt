//! A worker gives a shard back.
ghost use Rattle.std.specs.Prelude.{◌<◌, ◌≤◌, OnOk, IfErr};
ghost use Rattle.step_keeper.specs.Carrying.{Carries};
ghost use Rattle.durable_book.specs.Acts.{Puts, Refuses, IsCause, DiskRose};
ghost use Rattle.durable_book.specs.Doubts.{IsOwnDoubt, IsLeft};
ghost use Rattle.durable_book.specs.Faults.{hold_denial};
ghost use Rattle.durable_book.specs.Steps.{release_by};

use crate::adding::settle_and_add;
use crate::hold_fault::{HoldFault, hold_fault};
use sched_plain::{LAST_MOMENT, Moment, SHARDS, Step};
use step_keeper::Keeper;

/// A worker that took a shard with this epoch gives it back. `Stale` comes exactly where it is not the one that took it last,
/// with this epoch.
pub fn release<K: Keeper>(
    keeper: &mut K,
    at: Moment,
    shard: u8,
    worker: u32,
    epoch: u64,
) -> Result<(), HoldFault>
    requires moment { at.0 ≤ LAST_MOMENT }
    requires later { K.latest keeper.old ≤ at.0 }
    requires shard { shard < SHARDS }
    ensures released { OnOk result (Carries (K.held keeper.old) (K.stands keeper.new) (Puts (K.doubt keeper.old) (λ h. release_by at.0 shard worker epoch))) }
    ensures refused { IfErr result (λ fault. Carries (K.held keeper.old) (K.held keeper.new)
        (Refuses (K.doubt keeper.old) (IsCause (K.full keeper.new) (release_by at.0 shard worker epoch) (hold_denial fault)))) }
    ensures left { IsOwnDoubt (K.doubt keeper.old) → IfErr result (λ fault. IsLeft (hold_denial fault) (K.doubt keeper.new)) }
    ensures disk { IfErr result (λ fault. DiskRose (K.faults keeper.old) (K.faults keeper.new) (hold_denial fault)) }
    ensures latest { K.latest keeper.new ≤ at.0 }
    ensures faults { K.faults keeper.old ≤ K.faults keeper.new }
{
    let step = Step::Release {
        at,
        shard,
        worker,
        epoch,
    };
    if let Err(denial) = settle_and_add(keeper, step) {
        return Err(hold_fault(denial));
    }
    Ok(())
}
