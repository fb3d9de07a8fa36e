//! An attempt is ended.
ghost use Rattle.std.specs.Prelude.{◌≡◌, ◌≤◌, None, OnOk, OnErr, IfErr};
ghost use Rattle.sched_plain.specs.History.{History, ◌upon◌};
ghost use Rattle.sched_plain.specs.Leases.{holder};
ghost use Rattle.sched_plain.specs.Moments.{at_of};
ghost use Rattle.sched_plain.specs.Validity.{IsValid, IsStatus};
ghost use Rattle.step_machine.specs.Ends.{IsEnd};
ghost use Rattle.step_keeper.specs.Carrying.{Carries, CarriesTo, Shows, same};
ghost use Rattle.durable_book.specs.Acts.{Puts, Refuses, IsCause, DiskRose};
ghost use Rattle.durable_book.specs.Causes.{IsUnended};
ghost use Rattle.durable_book.specs.Doubts.{IsOwnDoubt, IsLeft};
ghost use Rattle.durable_book.specs.Faults.{end_denial, IsOfEnding};
ghost use Rattle.durable_book.specs.Steps.{end_with};

use crate::adding::{judge, mend, put};
use crate::denial::Denial;
use crate::end_fault::{EndFault, end_fault};
use crate::ticket::Ticket;
use sched_plain::{LAST_MOMENT, Moment, Step, Verdict, shard_of};
use step_keeper::Keeper;
use step_machine::Machine;

/// Adds an End, where no step is in doubt. Its room was made with that of its Begin, so that it wants neither room nor
/// memory.
fn add_end<K: Keeper>(keeper: &mut K, step: Step) -> Result<(), Denial>
    requires settled { K.doubt keeper.old ≡ None }
    requires valid { IsValid step }
    requires end { IsEnd step }
    ensures kept { OnOk result (CarriesTo (K.stands keeper.old) (K.stands keeper.new) (λ h. step upon h)) }
    ensures stays { OnErr result (CarriesTo (K.stands keeper.old) (K.held keeper.new) same) }
    ensures cause { IfErr result (λ denial. Shows (K.stands keeper.old) (IsCause (K.full keeper.new) step denial)) }
    ensures spare { IfErr result IsOfEnding }
    ensures left { IfErr result (λ denial. IsLeft denial (K.doubt keeper.new)) }
    ensures disk { IfErr result (DiskRose (K.faults keeper.old) (K.faults keeper.new)) }
    ensures latest { K.latest keeper.old ≤ at_of step → K.latest keeper.new ≤ at_of step }
    ensures faults { K.faults keeper.old ≤ K.faults keeper.new }
{
    if let Err(denial) = judge(keeper.book(), &step) {
        return Err(denial);
    }
    if let Err(denial) = put(keeper, step) {
        return Err(denial);
    }
    Ok(())
}

/// Ends the attempt of a ticket, which is spent whatever comes. `Stale` comes exactly where the attempt is not live: then it
/// was lost, or was ended before.
pub fn end<K: Keeper>(
    keeper: &mut K,
    at: Moment,
    ticket: Ticket,
    verdict: Verdict,
    status: u16,
) -> Result<(), EndFault>
    requires moment { at.0 ≤ LAST_MOMENT }
    requires later { K.latest keeper.old ≤ at.0 }
    requires inc { 1 ≤ ticket.inc }
    requires instant { ticket.instant ≤ LAST_MOMENT }
    requires number { 1 ≤ ticket.number }
    requires status { IsStatus status }
    ensures ended { OnOk result (Carries (K.held keeper.old) (K.stands keeper.new) (Puts (K.doubt keeper.old) (λ h. end_with at.0 ticket verdict status))) }
    ensures refused { IfErr result (λ fault. Carries (K.held keeper.old) (K.held keeper.new) (Refuses (K.doubt keeper.old) (IsUnended at.0 ticket verdict status fault))) }
    ensures left { IsOwnDoubt (K.doubt keeper.old) → IfErr result (λ fault. IsLeft (end_denial fault) (K.doubt keeper.new)) }
    ensures disk { IfErr result (λ fault. DiskRose (K.faults keeper.old) (K.faults keeper.new) (end_denial fault)) }
    ensures latest { K.latest keeper.new ≤ at.0 }
    ensures faults { K.faults keeper.old ≤ K.faults keeper.new }
{
    let Ticket {
        inc,
        instant,
        number,
        epoch: _,
    } = ticket;
    if let Err(_) = mend(keeper) {
        return Err(EndFault::DiskFault);
    }
    let epoch = keeper.book().holder(shard_of(inc)).epoch;
    let step = Step::End {
        at,
        inc,
        instant,
        number,
        verdict,
        status,
    };
    if let Err(denial) = add_end(keeper, step) {
        return Err(end_fault(denial, epoch));
    }
    Ok(())
}
