//! A finished schedule is removed.
ghost use Rattle.std.specs.Prelude.{◌≤◌, OnOk, IfErr};
ghost use Rattle.step_keeper.specs.Carrying.{Carries};
ghost use Rattle.durable_book.specs.Acts.{Puts, Refuses, IsCause, DiskRose};
ghost use Rattle.durable_book.specs.Doubts.{IsOwnDoubt, IsLeft};
ghost use Rattle.durable_book.specs.Faults.{complete_denial};
ghost use Rattle.durable_book.specs.Steps.{complete_of};

use crate::adding::settle_and_add;
use crate::complete_fault::{CompleteFault, complete_fault};
use sched_plain::{LAST_MOMENT, Moment, Step};
use step_keeper::Keeper;

/// Removes a schedule that is finished and whose action then is DELETE. `NotYet` comes exactly where it is not so.
pub fn complete<K: Keeper>(keeper: &mut K, at: Moment, inc: u32) -> Result<(), CompleteFault>
    requires moment { at.0 ≤ LAST_MOMENT }
    requires later { K.latest keeper.old ≤ at.0 }
    requires inc { 1 ≤ inc }
    ensures completed { OnOk result (Carries (K.held keeper.old) (K.stands keeper.new) (Puts (K.doubt keeper.old) (λ h. complete_of at.0 inc))) }
    ensures refused { IfErr result (λ fault. Carries (K.held keeper.old) (K.held keeper.new)
        (Refuses (K.doubt keeper.old) (IsCause (K.full keeper.new) (complete_of at.0 inc) (complete_denial fault)))) }
    ensures left { IsOwnDoubt (K.doubt keeper.old) → IfErr result (λ fault. IsLeft (complete_denial fault) (K.doubt keeper.new)) }
    ensures disk { IfErr result (λ fault. DiskRose (K.faults keeper.old) (K.faults keeper.new) (complete_denial fault)) }
    ensures latest { K.latest keeper.new ≤ at.0 }
    ensures faults { K.faults keeper.old ≤ K.faults keeper.new }
{
    if let Err(denial) = settle_and_add(keeper, Step::Complete { at, inc }) {
        return Err(complete_fault(denial));
    }
    Ok(())
}
