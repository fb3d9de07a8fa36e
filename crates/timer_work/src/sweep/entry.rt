//! Entries without an attempt: entering the occurrences that are wanted, and closing what is exhausted; and removing a schedule
//! that is finished.
ghost use Rattle.std.specs.Prelude.{ℕ, ◌≤◌, List, IfErr};
ghost use Rattle.std.specs.Prelude.{Option as Perhaps};
ghost use Rattle.sched_plain.specs.declared.outcome.Reason.{Reason};
ghost use Rattle.sched_plain.specs.declared.work.Work.TheVariants.{Enter, Close, Complete};
ghost use Rattle.target_link.specs.declared.link.Sent.{Sent as Handed};
ghost use Rattle.durable_book.specs.Acts.{DiskRose};
ghost use Rattle.durable_book.specs.Doubts.{IsLeft};
ghost use Rattle.durable_book.specs.Faults.{grow_denial};
ghost use Rattle.timer_work.specs.Going.{Outside, outside};
ghost use Rattle.timer_work.specs.Parts.{Wants, Handles};

use crate::sweep::stops::{close_stop, complete_stop};
use durable_book::{GrowFault, close_one, complete};
use durable_writes::enter;
use policy_rules::Picker;
use sched_plain::{LAST_MOMENT, Moment};
use std::alloc::Global;
use step_keeper::Keeper;

/// Enters the occurrences of an incarnation that are wanted.
pub(crate) fn enter_next<K: Keeper, P: Picker>(
    alloc: Global,
    keeper: &mut K,
    at: Moment,
    inc: u32,
    picker: &mut P,
) -> Result<(), GrowFault>
    requires moment { at.0 ≤ LAST_MOMENT }
    requires later { K.latest keeper.old ≤ at.0 }
    requires wanted { (shard : ℕ) × Wants (K.stands keeper.old) at.0 shard (Enter inc) }
    ensures done { (sent : Perhaps (List Handed)) → Handles (K.stands keeper.old) (K.stands keeper.new) (K.held keeper.new) (K.full keeper.new) at.0 (Enter inc)
        (outside (P.told picker.old) sent) (outside (P.told picker.new) sent) result }
    ensures left { IfErr result (λ fault. IsLeft (grow_denial fault) (K.doubt keeper.new)) }
    ensures disk { IfErr result (λ fault. DiskRose (K.faults keeper.old) (K.faults keeper.new) (grow_denial fault)) }
    ensures latest { K.latest keeper.new ≤ at.0 }
    ensures faults { K.faults keeper.old ≤ K.faults keeper.new }
{
    match enter(alloc, keeper, at, inc, picker) {
        Ok(_) => Ok(()),
        Err(fault) => Err(fault),
    }
}

/// Closes an entry that is exhausted.
pub(crate) fn close_next<K: Keeper>(
    keeper: &mut K,
    at: Moment,
    inc: u32,
    instant: u64,
) -> Result<(), GrowFault>
    requires moment { at.0 ≤ LAST_MOMENT }
    requires later { K.latest keeper.old ≤ at.0 }
    requires wanted { (reason : Reason) × (shard : ℕ) × Wants (K.stands keeper.old) at.0 shard (Close inc instant reason) }
    ensures done { (reason : Reason) (o : Outside) → Handles (K.stands keeper.old) (K.stands keeper.new) (K.held keeper.new) (K.full keeper.new) at.0 (Close inc instant reason) o o result }
    ensures left { IfErr result (λ fault. IsLeft (grow_denial fault) (K.doubt keeper.new)) }
    ensures disk { IfErr result (λ fault. DiskRose (K.faults keeper.old) (K.faults keeper.new) (grow_denial fault)) }
    ensures latest { K.latest keeper.new ≤ at.0 }
    ensures faults { K.faults keeper.old ≤ K.faults keeper.new }
{
    match close_one(keeper, at, inc, instant) {
        Ok(()) => Ok(()),
        Err(fault) => Err(close_stop(fault)),
    }
}

/// Removes a schedule that is finished.
pub(crate) fn complete_next<K: Keeper>(
    keeper: &mut K,
    at: Moment,
    inc: u32,
) -> Result<(), GrowFault>
    requires moment { at.0 ≤ LAST_MOMENT }
    requires later { K.latest keeper.old ≤ at.0 }
    requires wanted { (shard : ℕ) × Wants (K.stands keeper.old) at.0 shard (Complete inc) }
    ensures done { (o : Outside) → Handles (K.stands keeper.old) (K.stands keeper.new) (K.held keeper.new) (K.full keeper.new) at.0 (Complete inc) o o result }
    ensures left { IfErr result (λ fault. IsLeft (grow_denial fault) (K.doubt keeper.new)) }
    ensures disk { IfErr result (λ fault. DiskRose (K.faults keeper.old) (K.faults keeper.new) (grow_denial fault)) }
    ensures latest { K.latest keeper.new ≤ at.0 }
    ensures faults { K.faults keeper.old ≤ K.faults keeper.new }
{
    match complete(keeper, at, inc) {
        Ok(()) => Ok(()),
        Err(fault) => Err(complete_stop(fault)),
    }
}
