//! The plan of a write over the parts of a book.
ghost use Rattle.std.specs.Prelude.{◌≡◌, IfOk, List, None};
ghost use Rattle.std.specs.Option.{option_and_then, option_map};
ghost use Rattle.sched_plain.specs.History.{History};
ghost use Rattle.sched_plain.specs.Groups.{row_fault};
ghost use Rattle.sched_plain.specs.Rows.{touched_by};
ghost use Rattle.sched_plain.specs.Tokens.{Kept, kept_under, token_of};
ghost use Rattle.sched_calls.specs.Replies.{reply_to, token_refusal};
ghost use Rattle.zone_shelf.specs.Places.{bytes_in};
ghost use Rattle.token_shelf.specs.Shelves.{Keeps};
ghost use Rattle.token_shelf.specs.Answers.{IsAnswer};
ghost use Rattle.book_parts.specs.Stands.{Stands, calendar};
ghost use Rattle.write_plans.specs.Looking.{first_come, zone_needed};
ghost use Rattle.write_plans.specs.Planning.{IsPlanned, plan_by};

use crate::plan::Plan;
use crate::refusals::{row_refusal, token_refusal};
use crate::replying::reply_to;
use book_parts::{Parts, fault_of, first_open, is_utc, token_of, zone_of};
use date_table::DateTable;
use sched_plain::{Moment, Step, TryCopy, Write, ZoneName};
use sched_rows::Rows;
use std::alloc::{AllocError, Global};
use token_shelf::{Shelf, TokenAnswer};
use zone_shelf::ZoneShelf;

/// What is known of the token of a write; one that has none is new.
fn look(shelf: &Shelf, write: &Write) -> TokenAnswer
    ensures { (kept : List Kept) → Keeps shelf.now kept → IsAnswer result (option_and_then (kept_under kept) (token_of write.now)) write.now }
{
    match token_of(write) {
        Some(token) => shelf.look(token, write),
        None => TokenAnswer::New,
    }
}

/// The zone that a write needs a Zone step for: the one of its content, unless it is built in or has bytes.
fn zone_needed<'a>(zones: &ZoneShelf, write: &'a Write) -> Option<&'a ZoneName>
    ensures { option_map (λ zone. zone.now) result ≡ zone_needed (bytes_in zones.now) write.now }
{
    let zone = zone_of(write)?;
    if is_utc(zone) || zones.bytes(zone).is_some() {
        None
    } else {
        Some(zone)
    }
}

/// The least incarnation that a write touches and whose next instant has come.
fn first_come(rows: &Rows, next: &DateTable, write: &Write, now: Moment) -> Option<u32>
    ensures { result ≡ first_come next.now.dates now.0 (touched_by rows.now.rows write.now) }
{
    match first_open(rows, next, write, now) {
        Some((inc, _)) => Some(inc),
        None => None,
    }
}

/// The Change of a write, with a copy of it.
fn ready(write: &Write, now: Moment) -> Result<Plan, AllocError>
    ensures { IfOk result (λ plan. plan ≡ plan_by now.0 write.now None None None) }
{
    Ok(Plan::Ready(Step::Change {
        at: now,
        write: write.copy()?,
    }))
}

/// The plan of a write that needs no zone.
fn plan_timely(
    rows: &Rows,
    next: &DateTable,
    write: &Write,
    now: Moment,
) -> Result<Plan, AllocError>
    ensures { IfOk result (λ plan. plan ≡ plan_by now.0 write.now None None (first_come next.now.dates now.0 (touched_by rows.now.rows write.now))) }
{
    match first_come(rows, next, write, now) {
        Some(inc) => Ok(Plan::CatchUp { inc }),
        None => ready(write, now),
    }
}

/// The plan of a write that the schedules and groups allow.
fn plan_allowed(
    rows: &Rows,
    zones: &ZoneShelf,
    next: &DateTable,
    write: &Write,
    now: Moment,
) -> Result<Plan, AllocError>
    ensures { IfOk result (λ plan. plan ≡ plan_by now.0 write.now None (zone_needed (bytes_in zones.now) write.now) (first_come next.now.dates now.0 (touched_by rows.now.rows write.now))) }
{
    match zone_needed(zones, write) {
        Some(zone) => Ok(Plan::NeedsZone(zone.copy()?)),
        None => plan_timely(rows, next, write, now),
    }
}

/// The plan of a write whose token is new.
fn plan_new(
    rows: &Rows,
    zones: &ZoneShelf,
    next: &DateTable,
    alloc: Global,
    write: &Write,
    now: Moment,
) -> Result<Plan, AllocError>
    ensures { IfOk result (λ plan. plan ≡ plan_by now.0 write.now (row_fault rows.now.rows rows.now.groups write.now) (zone_needed (bytes_in zones.now) write.now) (first_come next.now.dates now.0 (touched_by rows.now.rows write.now))) }
{
    match fault_of(rows, write) {
        Some(fault) => Ok(Plan::Refused(row_refusal(alloc, write, fault)?)),
        None => plan_allowed(rows, zones, next, write, now),
    }
}

/// The plan of a write that was accepted before.
fn plan_known(alloc: Global, write: &Write) -> Result<Plan, AllocError>
    ensures { IfOk result (λ plan. plan ≡ Plan.Known (reply_to write.now)) }
{
    Ok(Plan::Known(reply_to(alloc, write)?))
}

/// The plan of a write whose token another write kept, by the step at a place.
fn plan_clash(alloc: Global, place: u64) -> Result<Plan, AllocError>
    ensures { IfOk result (λ plan. plan ≡ Plan.Refused (token_refusal place)) }
{
    Ok(Plan::Refused(token_refusal(alloc, place)?))
}

/// What is to be done with a write at a moment: it was answered before under its token, it is refused by the first of the
/// rules of tokens, groups, schedules and counts that it breaks, it needs the bytes of a zone, it touches an incarnation
/// that has occurrences without an entry at or before the moment, or its Change is ready. The moment is not looked at
/// beside the book's: a Change at one before it breaks the rule of moments. It fails only for want of memory; a write that
/// ends a group makes no list of what it ends.
pub fn plan_write(
    parts: &Parts,
    alloc: Global,
    write: &Write,
    now: Moment,
) -> Result<Plan, AllocError>
    ensures { (h : History) → Stands parts.now h → IfOk result (IsPlanned calendar h now.0 write.now) }
{
    work_order::work_is_by_dates();
    match look(&parts.shelf, write) {
        TokenAnswer::New => { plan_new(&parts.rows, &parts.zones, &parts.next, alloc, write, now) }
        TokenAnswer::Same => plan_known(alloc, write),
        TokenAnswer::Other { step } => plan_clash(alloc, step),
    }
}
