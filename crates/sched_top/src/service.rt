//! The service: one request is answered over the history that a keeper stands for.
ghost use Rattle.std.specs.Prelude.{◌≡◌, ◌≤◌, ℕ, true, Ok as Good, Option as Perhaps, List};
ghost use Rattle.outside.specs.Faults.{Rose};
ghost use Rattle.sched_plain.specs.History.{History, count};
ghost use Rattle.sched_plain.specs.Validity.{IsWrite};
ghost use Rattle.zone_occ.specs.declared.zone_files.NamedZone.{NamedZone};
ghost use Rattle.sched_calls.specs.Replies.{answer_to};
ghost use Rattle.step_keeper.specs.Carrying.{CarriesWhere, LivesWhere};
ghost use Rattle.target_link.specs.declared.link.Sent.{Sent};
ghost use Rattle.durable_book.specs.Doubts.{IsOwnDoubt};
ghost use Rattle.timer_work.specs.Swept.{IsFree};
ghost use Rattle.request_calls.specs.Calls.{call_of};
ghost use Rattle.request_calls.specs.Validity.{IsSoundCall};
ghost use Rattle.sched_top.specs.Serving.{Served, answer_text, later_of};
ghost use Rattle.sched_top.specs.Turns.{Turn, Outside, ZonesRose, LeavesDoubt, kind_of};
ghost use Rattle.sched_top.specs.Asking.{IsTold, AskedTurn};

mod response;
mod telling;
mod texts;

use durable_book::mend;
use durable_writes::do_write;
use http_wire::HttpRequest;
use policy_rules::Picker;
use request_calls::{decode, moment_of};
pub(crate) use response::Response;
use sched_calls::{Call, Read, Reply};
use sched_plain::{LAST_MOMENT, Moment, Write};
use std::alloc::Global;
use step_keeper::Keeper;
use step_machine::Machine;
use target_link::Link;
use telling::{answered, disk_failed, stopped, unread, written};
use timer_work::sweep_all;
use zone_occ::ZoneFiles;

/// Serves a write.
fn serve_write<K: Keeper, Z: ZoneFiles, P: Picker>(
    alloc: Global,
    keeper: &mut K,
    at: Moment,
    write: &Write,
    zones: &mut Z,
    picker: &mut P,
) -> Response
    requires moment { at.0 ≤ LAST_MOMENT }
    requires later { K.latest keeper.old ≤ at.0 }
    requires valid { IsWrite write.now }
    requires free { LivesWhere (IsFree (K.doubt keeper.old) at.0) (K.held keeper.old) }
    ensures turn { (sent : Perhaps (List Sent)) → CarriesWhere (IsFree (K.doubt keeper.old) at.0) (K.held keeper.old) (K.held keeper.new)
        (AskedTurn (K.full keeper.new) (Rose (K.faults keeper.old) (K.faults keeper.new)) (Z.told zones.old) (K.doubt keeper.old) (Good (Call.Write write.now)) at.0
        (record { words = P.told picker.old; sent = sent }) (record { words = P.told picker.new; sent = sent }) result) }
    ensures left { IsOwnDoubt (K.doubt keeper.old) → LeavesDoubt (K.doubt keeper.old) (kind_of result) (K.doubt keeper.new) }
    ensures zones_rose { ZonesRose (Z.faults zones.old) (Z.faults zones.new) result }
    ensures zones { Z.told zones.new ≡ Z.told zones.old }
    ensures zone_faults { Z.faults zones.old ≤ Z.faults zones.new }
    ensures latest { K.latest keeper.new ≤ at.0 }
    ensures faults { K.faults keeper.old ≤ K.faults keeper.new }
{
    let done = do_write(alloc, keeper, at, write, zones, picker);
    written(alloc, done, keeper.book().length())
}

/// What a read is shown.
fn show<M: Machine>(alloc: Global, machine: &M, read: &Read) -> Response
    ensures shown { (h : History) → M.stands machine.now h → IsTold Served (answer_text (answer_to h read.now) (count h)) result }
    ensures zones_rose { (before now : ℕ) → ZonesRose before now result }
{
    match machine.reply(read) {
        Ok(answer) => answered(alloc, &answer, machine.length()),
        Err(_) => Response::ShortOfMemory,
    }
}

/// Serves a read.
fn serve_read<K: Keeper>(alloc: Global, keeper: &mut K, at: Moment, read: &Read) -> Response
    requires later { K.latest keeper.old ≤ at.0 }
    ensures turn { (zones : Perhaps (List NamedZone)) (told : Outside) → CarriesWhere (IsFree (K.doubt keeper.old) at.0) (K.held keeper.old) (K.held keeper.new)
        (AskedTurn (K.full keeper.new) (Rose (K.faults keeper.old) (K.faults keeper.new)) zones (K.doubt keeper.old) (Good (Call.Read read.now)) at.0 told told result) }
    ensures left { IsOwnDoubt (K.doubt keeper.old) → LeavesDoubt (K.doubt keeper.old) (kind_of result) (K.doubt keeper.new) }
    ensures zones_rose { (before now : ℕ) → ZonesRose before now result }
    ensures latest { K.latest keeper.new ≤ at.0 }
    ensures faults { K.faults keeper.old ≤ K.faults keeper.new }
{
    match mend(keeper) {
        Ok(()) => show(alloc, keeper.book(), read),
        Err(_) => disk_failed(alloc),
    }
}

/// Serves a sweep.
fn serve_sweep<K: Keeper, P: Picker, L: Link>(
    alloc: Global,
    keeper: &mut K,
    at: Moment,
    picker: &mut P,
    link: &mut L,
) -> Response
    requires moment { at.0 ≤ LAST_MOMENT }
    requires later { K.latest keeper.old ≤ at.0 }
    requires free { LivesWhere (IsFree (K.doubt keeper.old) at.0) (K.held keeper.old) }
    ensures turn { (zones : Perhaps (List NamedZone)) → CarriesWhere (IsFree (K.doubt keeper.old) at.0) (K.held keeper.old) (K.held keeper.new)
        (AskedTurn (K.full keeper.new) (Rose (K.faults keeper.old) (K.faults keeper.new)) zones (K.doubt keeper.old) (Good Call.Sweep) at.0
        (record { words = P.told picker.old; sent = L.told link.old }) (record { words = P.told picker.new; sent = L.told link.new }) result) }
    ensures left { IsOwnDoubt (K.doubt keeper.old) → LeavesDoubt (K.doubt keeper.old) (kind_of result) (K.doubt keeper.new) }
    ensures zones_rose { (before now : ℕ) → ZonesRose before now result }
    ensures latest { K.latest keeper.new ≤ at.0 }
    ensures faults { K.faults keeper.old ≤ K.faults keeper.new }
    ensures losses { L.losses link.old ≤ L.losses link.new }
{
    match sweep_all(alloc, keeper, at, picker, link) {
        Ok(()) => answered(alloc, &Ok(Reply::Settled { at }), keeper.book().length()),
        Err(fault) => stopped(alloc, fault, keeper.book().length()),
    }
}

/// Serves a call.
fn serve<K: Keeper, Z: ZoneFiles, P: Picker, L: Link>(
    alloc: Global,
    keeper: &mut K,
    at: Moment,
    call: &Call,
    zones: &mut Z,
    picker: &mut P,
    link: &mut L,
) -> Response
    requires moment { at.0 ≤ LAST_MOMENT }
    requires later { K.latest keeper.old ≤ at.0 }
    requires sound { IsSoundCall call.now }
    requires free { LivesWhere (IsFree (K.doubt keeper.old) at.0) (K.held keeper.old) }
    ensures turn { CarriesWhere (IsFree (K.doubt keeper.old) at.0) (K.held keeper.old) (K.held keeper.new)
        (AskedTurn (K.full keeper.new) (Rose (K.faults keeper.old) (K.faults keeper.new)) (Z.told zones.old) (K.doubt keeper.old) (Good call.now) at.0
        (record { words = P.told picker.old; sent = L.told link.old }) (record { words = P.told picker.new; sent = L.told link.new }) result) }
    ensures left { IsOwnDoubt (K.doubt keeper.old) → LeavesDoubt (K.doubt keeper.old) (kind_of result) (K.doubt keeper.new) }
    ensures zones_rose { ZonesRose (Z.faults zones.old) (Z.faults zones.new) result }
    ensures zones { Z.told zones.new ≡ Z.told zones.old }
    ensures zone_faults { Z.faults zones.old ≤ Z.faults zones.new }
    ensures latest { K.latest keeper.new ≤ at.0 }
    ensures faults { K.faults keeper.old ≤ K.faults keeper.new }
    ensures losses { L.losses link.old ≤ L.losses link.new }
{
    match call {
        Call::Write(write) => serve_write(alloc, keeper, at, write, zones, picker),
        Call::Read(read) => serve_read(alloc, keeper, at, read),
        Call::Sweep => serve_sweep(alloc, keeper, at, picker, link),
    }
}

/// Answers a request at its moment: by what its call is answered, or the first rule that it breaks.
fn respond<K: Keeper, Z: ZoneFiles, P: Picker, L: Link>(
    alloc: Global,
    keeper: &mut K,
    at: Moment,
    request: &HttpRequest,
    zones: &mut Z,
    picker: &mut P,
    link: &mut L,
) -> Response
    requires moment { at.0 ≤ LAST_MOMENT }
    requires later { K.latest keeper.old ≤ at.0 }
    requires free { LivesWhere (IsFree (K.doubt keeper.old) at.0) (K.held keeper.old) }
    ensures turn { CarriesWhere (IsFree (K.doubt keeper.old) at.0) (K.held keeper.old) (K.held keeper.new)
        (AskedTurn (K.full keeper.new) (Rose (K.faults keeper.old) (K.faults keeper.new)) (Z.told zones.old) (K.doubt keeper.old) (call_of request.now true) at.0
        (record { words = P.told picker.old; sent = L.told link.old }) (record { words = P.told picker.new; sent = L.told link.new }) result) }
    ensures left { IsOwnDoubt (K.doubt keeper.old) → LeavesDoubt (K.doubt keeper.old) (kind_of result) (K.doubt keeper.new) }
    ensures zones_rose { ZonesRose (Z.faults zones.old) (Z.faults zones.new) result }
    ensures zones { Z.told zones.new ≡ Z.told zones.old }
    ensures zone_faults { Z.faults zones.old ≤ Z.faults zones.new }
    ensures latest { K.latest keeper.new ≤ at.0 }
    ensures faults { K.faults keeper.old ≤ K.faults keeper.new }
    ensures losses { L.losses link.old ≤ L.losses link.new }
{
    match decode(alloc, request, true) {
        Ok(call) => serve(alloc, keeper, at, &call, zones, picker, link),
        Err(fault) => unread(alloc, fault, keeper.book().length()),
    }
}

/// The later of the moment before and the one that a request tells.
fn later(now: Moment, stated: Option<u64>) -> Moment
    ensures { result.0 ≡ later_of now.0 stated }
{
    match stated {
        None => now,
        Some(stated) => Moment(now.0.max(stated)),
    }
}

/// Answers a request. Where it tells a moment that is later than that of the service, this becomes the service's.
pub(crate) fn answer<K: Keeper, Z: ZoneFiles, P: Picker, L: Link>(
    alloc: Global,
    keeper: &mut K,
    now: &mut Moment,
    request: &HttpRequest,
    zones: &mut Z,
    picker: &mut P,
    link: &mut L,
) -> Response
    requires moment { now.old.0 ≤ LAST_MOMENT }
    requires later { K.latest keeper.old ≤ now.old.0 }
    requires free { LivesWhere (IsFree (K.doubt keeper.old) now.old.0) (K.held keeper.old) }
    ensures turn { CarriesWhere (IsFree (K.doubt keeper.old) now.old.0) (K.held keeper.old) (K.held keeper.new)
        (Turn (K.full keeper.new) (Rose (K.faults keeper.old) (K.faults keeper.new)) (Z.told zones.old) (K.doubt keeper.old) now.old.0 request.now now.new.0
        (record { words = P.told picker.old; sent = L.told link.old }) (record { words = P.told picker.new; sent = L.told link.new }) result) }
    ensures left { IsOwnDoubt (K.doubt keeper.old) → LeavesDoubt (K.doubt keeper.old) (kind_of result) (K.doubt keeper.new) }
    ensures zones_rose { ZonesRose (Z.faults zones.old) (Z.faults zones.new) result }
    ensures zones { Z.told zones.new ≡ Z.told zones.old }
    ensures zone_faults { Z.faults zones.old ≤ Z.faults zones.new }
    ensures moment { now.new.0 ≤ LAST_MOMENT }
    ensures latest { K.latest keeper.new ≤ now.new.0 }
    ensures faults { K.faults keeper.old ≤ K.faults keeper.new }
    ensures losses { L.losses link.old ≤ L.losses link.new }
{
    match moment_of(alloc, request) {
        Ok(stated) => {
            *now = later(*now, stated);
            respond(alloc, keeper, *now, request, zones, picker, link)
        }
        Err(fault) => unread(alloc, fault, keeper.book().length()),
    }
}
