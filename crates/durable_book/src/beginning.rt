//! An attempt is begun.
ghost use Rattle.std.specs.Prelude.{◌≡◌, ◌≤◌, IfOk, IfErr};
ghost use Rattle.sched_plain.specs.History.{History};
ghost use Rattle.sched_calls.specs.Serves.{next_number};
ghost use Rattle.step_keeper.specs.Carrying.{Carries, LivesWhere};
ghost use Rattle.durable_book.specs.Acts.{Refuses, DiskRose};
ghost use Rattle.durable_book.specs.Causes.{Begins, IsUnbegun};
ghost use Rattle.durable_book.specs.Doubts.{IsOwnDoubt, IsLeft};
ghost use Rattle.durable_book.specs.Faults.{begin_denial};
ghost use Rattle.durable_book.specs.Steps.{HasEntry};

use crate::adding::{add, mend};
use crate::begin_fault::{BeginFault, begin_fault};
use crate::ticket::Ticket;
use book_laws::attempts_are_numbered;
use sched_plain::{LAST_MOMENT, Moment, Step};
use step_keeper::Keeper;
use step_machine::Machine;

/// The number of the next attempt of an occurrence. No entry's policy allows more attempts than there are numbers.
fn next_number<M: Machine>(machine: &M, inc: u32, instant: u64) -> u16
    requires lives { (h : History) × M.stands machine.now h }
    ensures number { (h : History) → M.stands machine.now h → result ≡ next_number h inc instant }
    ensures first { 1 ≤ result }
{
    attempts_are_numbered();
    match machine.entry(inc, instant) {
        Some(entry) => entry.used + 1,
        None => 1,
    }
}

/// Begins the next attempt of an occurrence under an epoch of its shard, and answers the ticket with which it is ended. The
/// occurrence must have an entry. `Stale` comes exactly where the epoch is not that of the shard, and else `NotDue` exactly
/// where the entry is not due.
pub fn begin<K: Keeper>(
    keeper: &mut K,
    at: Moment,
    inc: u32,
    instant: u64,
    epoch: u64,
) -> Result<Ticket, BeginFault>
    requires moment { at.0 ≤ LAST_MOMENT }
    requires later { K.latest keeper.old ≤ at.0 }
    requires inc { 1 ≤ inc }
    requires instant { instant ≤ LAST_MOMENT }
    requires entered { LivesWhere (HasEntry inc instant) (K.held keeper.old) }
    ensures begun { IfOk result (λ ticket. Carries (K.held keeper.old) (K.stands keeper.new) (Begins (K.doubt keeper.old) at.0 inc instant epoch ticket)) }
    ensures refused { IfErr result (λ fault. Carries (K.held keeper.old) (K.held keeper.new) (Refuses (K.doubt keeper.old) (IsUnbegun (K.full keeper.new) at.0 inc instant epoch fault))) }
    ensures left { IsOwnDoubt (K.doubt keeper.old) → IfErr result (λ fault. IsLeft (begin_denial fault) (K.doubt keeper.new)) }
    ensures disk { IfErr result (λ fault. DiskRose (K.faults keeper.old) (K.faults keeper.new) (begin_denial fault)) }
    ensures latest { K.latest keeper.new ≤ at.0 }
    ensures faults { K.faults keeper.old ≤ K.faults keeper.new }
{
    if let Err(_) = mend(keeper) {
        return Err(BeginFault::DiskFault);
    }
    let number = next_number(keeper.book(), inc, instant);
    let step = Step::Begin {
        at,
        inc,
        instant,
        number,
        epoch,
    };
    if let Err(denial) = add(keeper, step) {
        return Err(begin_fault(denial));
    }
    Ok(Ticket {
        inc,
        instant,
        number,
        epoch,
    })
}
