//! Entering the occurrences of an incarnation that have no entry.
ghost use Rattle.std.specs.Prelude.{◌≡◌, ◌≤◌, None, length, IfOk, IfErr, OnOk};
ghost use Rattle.sched_calls.specs.Serves.{wanted};
ghost use Rattle.book_parts.specs.Stands.{calendar};
ghost use Rattle.step_keeper.specs.Carrying.{Carries, Lives, Shows};
ghost use Rattle.durable_book.specs.Acts.{DiskRose};
ghost use Rattle.durable_book.specs.Doubts.{IsOwnDoubt, IsLeft};
ghost use Rattle.durable_book.specs.Faults.{grow_denial};
ghost use Rattle.durable_writes.specs.Entering.{Enters, LeavesUnentered};

use crate::choosing::choose;
use durable_book::{GrowFault, add_lawful, mend};
use policy_rules::Picker;
use sched_plain::{LAST_MOMENT, Moment, Step};
use std::alloc::Global;
use step_keeper::Keeper;
use step_machine::Machine;

/// Enters these instants, which are wanted.
fn enter_these<K: Keeper, P: Picker>(
    alloc: Global,
    keeper: &mut K,
    at: Moment,
    inc: u32,
    instants: &[u64],
    picker: &mut P,
) -> Result<(), GrowFault>
    requires moment { at.0 ≤ LAST_MOMENT }
    requires later { K.latest keeper.old ≤ at.0 }
    requires lives { Lives (K.stands keeper.old) }
    requires wanted { Shows (K.stands keeper.old) (λ h. instants.now ≡ wanted calendar h inc at.0) }
    requires some { 1 ≤ length instants.now }
    ensures entered { OnOk result (Carries (K.stands keeper.old) (K.stands keeper.new)
        (Enters None at.0 inc (length instants.now) (P.told picker.old) (P.told picker.new))) }
    ensures refused { IfErr result (λ fault. Carries (K.stands keeper.old) (K.held keeper.new)
        (LeavesUnentered (K.full keeper.new) None at.0 inc (P.told picker.old) (P.told picker.new) fault)) }
    ensures left { IfErr result (λ fault. IsLeft (grow_denial fault) (K.doubt keeper.new)) }
    ensures disk { IfErr result (λ fault. DiskRose (K.faults keeper.old) (K.faults keeper.new) (grow_denial fault)) }
    ensures latest { K.latest keeper.new ≤ at.0 }
    ensures faults { K.faults keeper.old ≤ K.faults keeper.new }
{
    let Ok(pairs) = choose(alloc, keeper.book(), inc, instants, picker) else {
        return Err(GrowFault::OutOfMemory);
    };
    if let Err(fault) = add_lawful(keeper, Step::Enter { at, inc, pairs }) {
        return Err(fault);
    }
    Ok(())
}

/// Enters what is wanted for an incarnation, where no step is in doubt.
pub(crate) fn enter_found<K: Keeper, P: Picker>(
    alloc: Global,
    keeper: &mut K,
    at: Moment,
    inc: u32,
    picker: &mut P,
) -> Result<u16, GrowFault>
    requires moment { at.0 ≤ LAST_MOMENT }
    requires later { K.latest keeper.old ≤ at.0 }
    requires lives { Lives (K.stands keeper.old) }
    ensures entered { IfOk result (λ many. Carries (K.stands keeper.old) (K.stands keeper.new)
        (Enters None at.0 inc many (P.told picker.old) (P.told picker.new))) }
    ensures refused { IfErr result (λ fault. Carries (K.stands keeper.old) (K.held keeper.new)
        (LeavesUnentered (K.full keeper.new) None at.0 inc (P.told picker.old) (P.told picker.new) fault)) }
    ensures left { IfErr result (λ fault. IsLeft (grow_denial fault) (K.doubt keeper.new)) }
    ensures disk { IfErr result (λ fault. DiskRose (K.faults keeper.old) (K.faults keeper.new) (grow_denial fault)) }
    ensures latest { K.latest keeper.new ≤ at.0 }
    ensures faults { K.faults keeper.old ≤ K.faults keeper.new }
{
    let Ok(instants) = keeper.book().wanted(inc, at) else {
        return Err(GrowFault::OutOfMemory);
    };
    if instants.is_empty() {
        return Ok(0);
    }
    if let Err(fault) = enter_these(alloc, keeper, at, inc, instants.as_slice(), picker) {
        return Err(fault);
    }
    Ok(instants.len() as u16)
}

/// Enters the first occurrences of an incarnation that have no entry, at most 256, each at a moment chosen in its window by a
/// word of the picker, and answers how many; 0 where none is wanted, and then nothing is added.
pub fn enter<K: Keeper, P: Picker>(
    alloc: Global,
    keeper: &mut K,
    at: Moment,
    inc: u32,
    picker: &mut P,
) -> Result<u16, GrowFault>
    requires moment { at.0 ≤ LAST_MOMENT }
    requires later { K.latest keeper.old ≤ at.0 }
    requires inc { 1 ≤ inc }
    requires lives { Lives (K.held keeper.old) }
    ensures entered { IfOk result (λ many. Carries (K.held keeper.old) (K.stands keeper.new)
        (Enters (K.doubt keeper.old) at.0 inc many (P.told picker.old) (P.told picker.new))) }
    ensures refused { IfErr result (λ fault. Carries (K.held keeper.old) (K.held keeper.new)
        (LeavesUnentered (K.full keeper.new) (K.doubt keeper.old) at.0 inc (P.told picker.old) (P.told picker.new) fault)) }
    ensures left { IsOwnDoubt (K.doubt keeper.old) → IfErr result (λ fault. IsLeft (grow_denial fault) (K.doubt keeper.new)) }
    ensures disk { IfErr result (λ fault. DiskRose (K.faults keeper.old) (K.faults keeper.new) (grow_denial fault)) }
    ensures latest { K.latest keeper.new ≤ at.0 }
    ensures faults { K.faults keeper.old ≤ K.faults keeper.new }
{
    if let Err(_) = mend(keeper) {
        return Err(GrowFault::DiskFault);
    }
    enter_found(alloc, keeper, at, inc, picker)
}
