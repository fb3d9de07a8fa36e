//! A step that may follow is added.
ghost use Rattle.std.specs.Prelude.{◌≡◌, ◌≤◌, OnOk, OnErr, IfErr};
ghost use Rattle.sched_plain.specs.History.{History, ◌upon◌};
ghost use Rattle.sched_plain.specs.Legal.{MayFollow};
ghost use Rattle.sched_plain.specs.Moments.{at_of};
ghost use Rattle.sched_plain.specs.Validity.{IsValid};
ghost use Rattle.book_parts.specs.Stands.{calendar};
ghost use Rattle.step_keeper.specs.Carrying.{CarriesTo, LivesWhere, Shows, same};
ghost use Rattle.durable_book.specs.Acts.{IsCause, DiskRose};
ghost use Rattle.durable_book.specs.Doubts.{IsOwn, IsLeft};
ghost use Rattle.durable_book.specs.Faults.{grow_denial};

use crate::adding::add;
use crate::grow_fault::{GrowFault, grow_fault_of};
use sched_plain::Step;
use step_keeper::Keeper;

/// Adds a step that may follow a history that the keeper stands for, where no step is in doubt. So it breaks no rule.
pub fn add_lawful<K: Keeper>(keeper: &mut K, step: Step) -> Result<(), GrowFault>
    requires valid { IsValid step }
    requires lawful { LivesWhere (λ h. MayFollow calendar h step) (K.stands keeper.old) }
    ensures kept { OnOk result (CarriesTo (K.stands keeper.old) (K.stands keeper.new) (λ h. step upon h)) }
    ensures stays { OnErr result (CarriesTo (K.stands keeper.old) (K.held keeper.new) same) }
    ensures cause { IfErr result (λ fault. Shows (K.stands keeper.old) (IsCause (K.full keeper.new) step (grow_denial fault))) }
    ensures left { IsOwn step → IfErr result (λ fault. IsLeft (grow_denial fault) (K.doubt keeper.new)) }
    ensures disk { IfErr result (λ fault. DiskRose (K.faults keeper.old) (K.faults keeper.new) (grow_denial fault)) }
    ensures latest { K.latest keeper.old ≤ at_of step → K.latest keeper.new ≤ at_of step }
    ensures faults { K.faults keeper.old ≤ K.faults keeper.new }
{
    if let Err(denial) = add(keeper, step) {
        return Err(grow_fault_of(denial));
    }
    Ok(())
}
