//! An entry is given up.
ghost use Rattle.std.specs.Prelude.{◌≡◌, ◌≤◌, Some, OnOk, IfErr};
ghost use Rattle.sched_plain.specs.History.{History};
ghost use Rattle.sched_plain.specs.Moments.{moment};
ghost use Rattle.sched_plain.specs.declared.why.Why.TheVariants as whys;
ghost use Rattle.step_keeper.specs.Carrying.{Carries, LivesWhere};
ghost use Rattle.durable_book.specs.Acts.{Puts, Refuses, DiskRose};
ghost use Rattle.durable_book.specs.Causes.{IsUnclosed};
ghost use Rattle.durable_book.specs.declared.denial.Denial.TheVariants as denials;
ghost use Rattle.durable_book.specs.Doubts.{IsOwnDoubt, IsLeft};
ghost use Rattle.durable_book.specs.Faults.{close_denial, IsOfClosing};
ghost use Rattle.durable_book.specs.Steps.{HasEntry, standing_at, close_with};

use crate::adding::{judge, mend};
use crate::close_fault::{CloseFault, close_fault};
use crate::denial::Denial;
use crate::growing::add_lawful;
use sched_plain::{LAST_MOMENT, Moment, Reason, Standing, Step, Why};
use step_keeper::Keeper;
use step_machine::Machine;

/// The standing for which a Close is denied.
fn standing_told(denial: Denial) -> Standing
    requires { IsOfClosing denial }
    ensures { denial ≡ denials.Rule (whys.Standing result) }
{
    match denial {
        Denial::Rule(Why::Standing(standing)) => standing,
        _ => unreachable!(),
    }
}

/// Where an entry stands at a moment: a Close for one of the two reasons may follow, or is denied for the standing.
fn standing<M: Machine>(machine: &M, at: Moment, inc: u32, instant: u64) -> Standing
    requires moment { at.0 ≤ LAST_MOMENT }
    requires inc { 1 ≤ inc }
    requires instant { instant ≤ LAST_MOMENT }
    requires entered { (h : History) × M.stands machine.now h × HasEntry inc instant h × (moment h ≤ at.0) }
    ensures { (h : History) → M.stands machine.now h → Some result ≡ standing_at h at.0 inc instant }
{
    let step = Step::Close {
        at,
        inc,
        instant,
        reason: Reason::Attempts,
    };
    match judge(machine, &step) {
        Ok(()) => Standing::Exhausted(Reason::Attempts),
        Err(denial) => standing_told(denial),
    }
}

/// Closes an exhausted entry for its reason. The occurrence must have an entry. `Open` comes exactly where the entry is not
/// exhausted.
pub fn close_one<K: Keeper>(
    keeper: &mut K,
    at: Moment,
    inc: u32,
    instant: u64,
) -> Result<(), CloseFault>
    requires moment { at.0 ≤ LAST_MOMENT }
    requires later { K.latest keeper.old ≤ at.0 }
    requires inc { 1 ≤ inc }
    requires instant { instant ≤ LAST_MOMENT }
    requires entered { LivesWhere (HasEntry inc instant) (K.held keeper.old) }
    ensures closed { OnOk result (Carries (K.held keeper.old) (K.stands keeper.new) (Puts (K.doubt keeper.old) (λ h. close_with h at.0 inc instant))) }
    ensures refused { IfErr result (λ fault. Carries (K.held keeper.old) (K.held keeper.new) (Refuses (K.doubt keeper.old) (IsUnclosed (K.full keeper.new) at.0 inc instant fault))) }
    ensures left { IsOwnDoubt (K.doubt keeper.old) → IfErr result (λ fault. IsLeft (close_denial fault) (K.doubt keeper.new)) }
    ensures disk { IfErr result (λ fault. DiskRose (K.faults keeper.old) (K.faults keeper.new) (close_denial fault)) }
    ensures latest { K.latest keeper.new ≤ at.0 }
    ensures faults { K.faults keeper.old ≤ K.faults keeper.new }
{
    if let Err(_) = mend(keeper) {
        return Err(CloseFault::DiskFault);
    }
    let standing = standing(keeper.book(), at, inc, instant);
    let Standing::Exhausted(reason) = standing else {
        return Err(CloseFault::Open(standing));
    };
    let step = Step::Close {
        at,
        inc,
        instant,
        reason,
    };
    if let Err(fault) = add_lawful(keeper, step) {
        return Err(close_fault(fault));
    }
    Ok(())
}
