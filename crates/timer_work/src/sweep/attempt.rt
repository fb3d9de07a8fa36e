//! One attempt: its Begin, its request, and its End as the reply says.
ghost use Rattle.std.specs.Prelude.{◌≡◌, ℕ, ◌≤◌, List, OnOk, OnErr, IfOk, IfErr};
ghost use Rattle.std.specs.Prelude.{Option as Perhaps};
ghost use Rattle.sched_plain.specs.declared.work.Work.TheVariants.{Begin};
ghost use Rattle.sched_plain.specs.History.{History, ◌upon◌};
ghost use Rattle.sched_plain.specs.Validity.{IsStatus};
ghost use Rattle.sched_calls.specs.Serves.{next_number};
ghost use Rattle.step_keeper.specs.Carrying.{CarriesTo, LivesWhere, Shows, same};
ghost use Rattle.durable_book.specs.declared.grow_fault.GrowFault.TheVariants as grows;
ghost use Rattle.durable_book.specs.Acts.{DiskRose};
ghost use Rattle.durable_book.specs.Doubts.{IsLeft};
ghost use Rattle.durable_book.specs.Faults.{grow_denial};
ghost use Rattle.durable_book.specs.Steps.{end_with};
ghost use Rattle.timer_work.specs.Swept.{IsCauseOfStop};
ghost use Rattle.timer_work.specs.Numbers.{number_behind};
ghost use Rattle.timer_work.specs.Going.{outside};
ghost use Rattle.timer_work.specs.Parts.{Wants, Handles, Begins, IsBegun};
ghost use Rattle.timer_work.specs.Ready.{IsRequestOf, HasRoom};

use crate::sweep::request::{ReadyRequest, prepare, send};
use crate::sweep::stops::{begin_stop, end_stop};
use durable_book::{GrowFault, Ticket, begin, end};
use sched_plain::{Entry, LAST_MOMENT, Moment, Verdict, shard_of};
use std::alloc::Global;
use step_keeper::Keeper;
use step_machine::Machine;
use target_link::Link;

/// The number behind those of an entry's attempts.
fn number_behind(entry: Option<Entry>) -> u16
    requires { number_behind entry ≤ u16.MAX }
    ensures { result ≡ number_behind entry }
{
    match entry {
        Some(entry) => entry.used + 1,
        None => 1,
    }
}

/// The number of the next attempt of an occurrence.
fn next_number<M: Machine>(machine: &M, inc: u32, instant: u64) -> u16
    requires small { (h : History) × M.stands machine.now h × (next_number h inc instant ≤ u16.MAX) }
    ensures { (h : History) → M.stands machine.now h → result ≡ next_number h inc instant }
{
    number_behind(machine.entry(inc, instant))
}

/// Begins an attempt.
fn begin_next<K: Keeper>(
    keeper: &mut K,
    at: Moment,
    inc: u32,
    instant: u64,
) -> Result<Ticket, GrowFault>
    requires moment { at.0 ≤ LAST_MOMENT }
    requires later { K.latest keeper.old ≤ at.0 }
    requires wanted { (shard : ℕ) × Wants (K.stands keeper.old) at.0 shard (Begin inc instant) }
    ensures begun { IfOk result (Begins (K.stands keeper.old) (K.stands keeper.new) at.0 inc instant) }
    ensures stays { OnErr result (CarriesTo (K.stands keeper.old) (K.held keeper.new) same) }
    ensures cause { IfErr result (λ fault. Shows (K.stands keeper.old) (IsCauseOfStop (K.full keeper.new) fault)) }
    ensures left { IfErr result (λ fault. IsLeft (grow_denial fault) (K.doubt keeper.new)) }
    ensures disk { IfErr result (λ fault. DiskRose (K.faults keeper.old) (K.faults keeper.new) (grow_denial fault)) }
    ensures latest { K.latest keeper.new ≤ at.0 }
    ensures faults { K.faults keeper.old ≤ K.faults keeper.new }
{
    let epoch = keeper.book().holder(shard_of(inc)).epoch;
    match begin(keeper, at, inc, instant, epoch) {
        Ok(ticket) => Ok(ticket),
        Err(fault) => Err(begin_stop(fault)),
    }
}

/// Ends an attempt.
fn end_next<K: Keeper>(
    keeper: &mut K,
    at: Moment,
    ticket: Ticket,
    verdict: Verdict,
    status: u16,
) -> Result<(), GrowFault>
    requires moment { at.0 ≤ LAST_MOMENT }
    requires later { K.latest keeper.old ≤ at.0 }
    requires status { IsStatus status }
    requires begun { LivesWhere (IsBegun at.0 ticket) (K.stands keeper.old) }
    ensures ended { OnOk result (CarriesTo (K.stands keeper.old) (K.stands keeper.new) (λ h. end_with at.0 ticket verdict status upon h)) }
    ensures stays { OnErr result (CarriesTo (K.stands keeper.old) (K.held keeper.new) same) }
    ensures cause { IfErr result (λ fault. fault ≡ grows.DiskFault) }
    ensures left { IfErr result (λ fault. IsLeft (grow_denial fault) (K.doubt keeper.new)) }
    ensures disk { IfErr result (λ fault. DiskRose (K.faults keeper.old) (K.faults keeper.new) (grow_denial fault)) }
    ensures latest { K.latest keeper.new ≤ at.0 }
    ensures faults { K.faults keeper.old ≤ K.faults keeper.new }
{
    match end(keeper, at, ticket, verdict, status) {
        Ok(()) => Ok(()),
        Err(fault) => Err(end_stop(fault)),
    }
}

/// Begins an attempt, sends its request, and ends it as the reply says.
fn attempt_ready<K: Keeper, L: Link>(
    keeper: &mut K,
    at: Moment,
    inc: u32,
    instant: u64,
    request: Option<ReadyRequest>,
    link: &mut L,
) -> Result<(), GrowFault>
    requires moment { at.0 ≤ LAST_MOMENT }
    requires later { K.latest keeper.old ≤ at.0 }
    requires wanted { (shard : ℕ) × Wants (K.stands keeper.old) at.0 shard (Begin inc instant) }
    requires request { Shows (K.stands keeper.old) (IsRequestOf inc instant request) }
    requires room { HasRoom (L.sends_left link.old) (L.most_bytes link.old) request }
    ensures done { (words : Perhaps (List ℕ)) → Handles (K.stands keeper.old) (K.stands keeper.new) (K.held keeper.new) (K.full keeper.new) at.0 (Begin inc instant)
        (outside words (L.told link.old)) (outside words (L.told link.new)) result }
    ensures left { IfErr result (λ fault. IsLeft (grow_denial fault) (K.doubt keeper.new)) }
    ensures disk { IfErr result (λ fault. DiskRose (K.faults keeper.old) (K.faults keeper.new) (grow_denial fault)) }
    ensures latest { K.latest keeper.new ≤ at.0 }
    ensures faults { K.faults keeper.old ≤ K.faults keeper.new }
    ensures losses { L.losses link.old ≤ L.losses link.new }
{
    let ticket = match begin_next(keeper, at, inc, instant) {
        Ok(ticket) => ticket,
        Err(fault) => return Err(fault),
    };
    let (verdict, status) = send(link, request);
    if let Err(fault) = end_next(keeper, at, ticket, verdict, status) {
        return Err(fault);
    }
    Ok(())
}

/// One attempt of an occurrence whose entry is due.
pub(crate) fn attempt<K: Keeper, L: Link>(
    alloc: Global,
    keeper: &mut K,
    at: Moment,
    inc: u32,
    instant: u64,
    link: &mut L,
) -> Result<(), GrowFault>
    requires moment { at.0 ≤ LAST_MOMENT }
    requires later { K.latest keeper.old ≤ at.0 }
    requires wanted { (shard : ℕ) × Wants (K.stands keeper.old) at.0 shard (Begin inc instant) }
    ensures done { (words : Perhaps (List ℕ)) → Handles (K.stands keeper.old) (K.stands keeper.new) (K.held keeper.new) (K.full keeper.new) at.0 (Begin inc instant)
        (outside words (L.told link.old)) (outside words (L.told link.new)) result }
    ensures left { IfErr result (λ fault. IsLeft (grow_denial fault) (K.doubt keeper.new)) }
    ensures disk { IfErr result (λ fault. DiskRose (K.faults keeper.old) (K.faults keeper.new) (grow_denial fault)) }
    ensures latest { K.latest keeper.new ≤ at.0 }
    ensures faults { K.faults keeper.old ≤ K.faults keeper.new }
    ensures losses { L.losses link.old ≤ L.losses link.new }
{
    let number = next_number(keeper.book(), inc, instant);
    let Ok(request) = prepare(alloc, keeper.book(), link, inc, instant, number) else {
        return Err(GrowFault::OutOfMemory);
    };
    if let Err(fault) = attempt_ready(keeper, at, inc, instant, request, link) {
        return Err(fault);
    }
    Ok(())
}
