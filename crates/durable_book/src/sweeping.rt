//! A shard with nothing to do is marked as swept.
ghost use Rattle.std.specs.Prelude.{◌<◌, ◌≤◌, OnOk, IfErr};
ghost use Rattle.step_keeper.specs.Carrying.{Carries};
ghost use Rattle.durable_book.specs.Acts.{Puts, Refuses, IsCause, DiskRose};
ghost use Rattle.durable_book.specs.Doubts.{IsOwnDoubt, IsLeft};
ghost use Rattle.durable_book.specs.Faults.{swept_denial};
ghost use Rattle.durable_book.specs.Steps.{swept_of};

use crate::adding::settle_and_add;
use crate::swept_fault::{SweptFault, swept_fault};
use sched_plain::{LAST_MOMENT, Moment, SHARDS, Step};
use step_keeper::Keeper;

/// Marks that nothing of a shard was left to do at the moment. `Again` comes exactly where there is work, and tells it.
pub fn swept<K: Keeper>(keeper: &mut K, at: Moment, shard: u8) -> Result<(), SweptFault>
    requires moment { at.0 ≤ LAST_MOMENT }
    requires later { K.latest keeper.old ≤ at.0 }
    requires shard { shard < SHARDS }
    ensures swept { OnOk result (Carries (K.held keeper.old) (K.stands keeper.new) (Puts (K.doubt keeper.old) (λ h. swept_of at.0 shard))) }
    ensures refused { IfErr result (λ fault. Carries (K.held keeper.old) (K.held keeper.new)
        (Refuses (K.doubt keeper.old) (IsCause (K.full keeper.new) (swept_of at.0 shard) (swept_denial fault)))) }
    ensures left { IsOwnDoubt (K.doubt keeper.old) → IfErr result (λ fault. IsLeft (swept_denial fault) (K.doubt keeper.new)) }
    ensures disk { IfErr result (λ fault. DiskRose (K.faults keeper.old) (K.faults keeper.new) (swept_denial fault)) }
    ensures latest { K.latest keeper.new ≤ at.0 }
    ensures faults { K.faults keeper.old ≤ K.faults keeper.new }
{
    if let Err(denial) = settle_and_add(keeper, Step::Swept { at, shard }) {
        return Err(swept_fault(denial));
    }
    Ok(())
}
