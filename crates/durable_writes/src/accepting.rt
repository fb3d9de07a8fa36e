//! A write that no rule stops: what it touches is caught up, and then its Change is added.
ghost use Rattle.std.specs.Prelude.{◌≡◌, ◌≤◌, IfOk, IfErr, OnOk, OnErr};
ghost use Rattle.sched_plain.specs.History.{◌upon◌};
ghost use Rattle.sched_plain.specs.Legal.{IsLegal};
ghost use Rattle.sched_plain.specs.Validity.{IsWrite};
ghost use Rattle.sched_calls.specs.Replies.{reply_to};
ghost use Rattle.book_parts.specs.Stands.{calendar};
ghost use Rattle.step_keeper.specs.Carrying.{CarriesTo, CarriesWhere, Lives, LivesWhere, Shows, same};
ghost use Rattle.write_plans.specs.Planning.{IsPlanned};
ghost use Rattle.write_plans.specs.declared.plan.Plan.TheVariants as plans;
ghost use Rattle.durable_book.specs.Acts.{DiskRose, IsCause};
ghost use Rattle.durable_book.specs.Doubts.{IsLeft};
ghost use Rattle.durable_book.specs.Faults.{grow_denial};
ghost use Rattle.durable_writes.specs.Leading.{IsUnhindered, IsAccepted, IsStopped};

use crate::entering::enter_found;
use crate::onward::{Next, next_of};
use durable_book::{GrowFault, add_lawful};
use policy_rules::Picker;
use sched_calls::Reply;
use sched_plain::{LAST_MOMENT, Moment, Step, Write};
use std::alloc::Global;
use step_keeper::Keeper;
use write_plans::reply_to;

/// Adds the Change of a write, which is ready. The reply is made first, since nothing may fail behind the Change.
fn change<K: Keeper>(
    alloc: Global,
    keeper: &mut K,
    at: Moment,
    write: &Write,
    ready: Step,
) -> Result<Reply, GrowFault>
    requires moment { at.0 ≤ LAST_MOMENT }
    requires later { K.latest keeper.old ≤ at.0 }
    requires valid { IsWrite write.now }
    requires lives { Lives (K.stands keeper.old) }
    requires ready { Shows (K.stands keeper.old) (λ h. IsPlanned calendar h at.0 write.now (plans.Ready ready)) }
    ensures reply { IfOk result (λ reply. reply ≡ reply_to write.now) }
    ensures added { OnOk result (CarriesTo (K.stands keeper.old) (K.stands keeper.new) (λ h. ready upon h)) }
    ensures stays { OnErr result (CarriesTo (K.stands keeper.old) (K.held keeper.new) same) }
    ensures cause { IfErr result (λ fault. Shows (K.stands keeper.old) (IsCause (K.full keeper.new) ready (grow_denial fault))) }
    ensures left { IfErr result (λ fault. IsLeft (grow_denial fault) (K.doubt keeper.new)) }
    ensures disk { IfErr result (λ fault. DiskRose (K.faults keeper.old) (K.faults keeper.new) (grow_denial fault)) }
    ensures latest { K.latest keeper.new ≤ at.0 }
    ensures faults { K.faults keeper.old ≤ K.faults keeper.new }
{
    let Ok(reply) = reply_to(alloc, write) else {
        return Err(GrowFault::OutOfMemory);
    };
    if let Err(fault) = add_lawful(keeper, ready) {
        return Err(fault);
    }
    Ok(reply)
}

/// Serves a write that no rule stops, where no step is in doubt.
pub(crate) fn accept<K: Keeper, P: Picker>(
    alloc: Global,
    keeper: &mut K,
    at: Moment,
    write: &Write,
    picker: &mut P,
) -> Result<Reply, GrowFault>
    requires moment { at.0 ≤ LAST_MOMENT }
    requires later { K.latest keeper.old ≤ at.0 }
    requires valid { IsWrite write.now }
    requires lives { LivesWhere (λ h. IsUnhindered write.now h × IsLegal calendar h) (K.stands keeper.old) }
    ensures done { IfOk result (λ reply. CarriesWhere (IsUnhindered write.now) (K.stands keeper.old) (K.stands keeper.new)
        (IsAccepted at.0 write.now (P.told picker.old) (P.told picker.new) reply)) }
    ensures stopped { IfErr result (λ fault. CarriesWhere (IsUnhindered write.now) (K.stands keeper.old) (K.held keeper.new)
        (IsStopped (K.full keeper.new) at.0 write.now (P.told picker.old) (P.told picker.new) fault)) }
    ensures left { IfErr result (λ fault. IsLeft (grow_denial fault) (K.doubt keeper.new)) }
    ensures disk { IfErr result (λ fault. DiskRose (K.faults keeper.old) (K.faults keeper.new) (grow_denial fault)) }
    ensures latest { K.latest keeper.new ≤ at.0 }
    ensures faults { K.faults keeper.old ≤ K.faults keeper.new }
{
    // Each Enter leaves less to be entered, and there are fewer than 2^96 occurrences.
    'entering: for _done in 0..u128::MAX {
        let Ok(next) = next_of(keeper.book(), at, write) else {
            return Err(GrowFault::OutOfMemory);
        };
        match next {
            Next::CatchUp { inc } => {
                if let Err(fault) = enter_found(alloc, keeper, at, inc, picker) {
                    return Err(fault);
                }
            }
            Next::Ready(step) => return change(alloc, keeper, at, write, step),
        }
    }
    unreachable!()
}
