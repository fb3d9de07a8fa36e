//! The rules of writes and of zones, over the parts.
ghost use Rattle.std.specs.Prelude.{◌≡◌, ◌≤◌, ◌&&◌, ◌||◌, nat_le, length, None, Some, IfOk, is_some, List};
ghost use Rattle.std.specs.Option.{option_map, option_and_then};
ghost use Rattle.plain_words.specs.declared.limits.TheConstants.{LONGEST_ZONE};
ghost use Rattle.sched_plain.specs.declared.step.Step.TheVariants as steps;
ghost use Rattle.sched_plain.specs.Groups.{row_fault};
ghost use Rattle.sched_plain.specs.Zones.{is_utc};
ghost use Rattle.sched_plain.specs.Rules.{is_zone_unknown, zone_of};
ghost use Rattle.sched_plain.specs.Tokens.{Kept, kept_under, token_of};
ghost use Rattle.token_shelf.specs.Shelves.{Keeps};
ghost use Rattle.zone_occ.specs.ZoneBytes.{zone_of as zone_read};
ghost use Rattle.book_parts.specs.Stands.{Judged};
ghost use Rattle.book_parts.specs.Touching.{zones_in};

use crate::parts::Parts;
use crate::touching::first_open;
use plain_words::{Blob, Token, ZoneName};
use sched_plain::{Moment, RowFault, Why, Write};
use sched_rows::Rows;
use std::alloc::{AllocError, Global};
use token_shelf::Shelf;
use zone_occ::{Zone, ZoneFault};
use zone_shelf::ZoneShelf;

/// Whether a name is that of the zone that is built in.
pub fn is_utc(name: &ZoneName) -> bool
    ensures { result ≡ is_utc name.now }
{
    name.as_bytes() == b"UTC".as_slice()
}

/// The zone that a write's content names.
pub fn zone_of(write: &Write) -> Option<&ZoneName>
    ensures { option_map (λ zone. zone.now) result ≡ zone_of write.now }
{
    match write {
        Write::CreateSchedule { content, .. } | Write::UpdateSchedule { content, .. } => {
            Some(&content.zone)
        }
        _ => None,
    }
}

/// Whether the zone that a write's content names has no bytes, and is not the one that is built in.
fn is_zone_unknown(zones: &ZoneShelf, write: &Write) -> bool
    ensures { result ≡ is_zone_unknown (zones_in zones.now) (zone_of write.now) }
{
    match zone_of(write) {
        Some(zone) => !is_utc(zone) && zones.bytes(zone).is_none(),
        None => false,
    }
}

/// The token of a write.
pub fn token_of(write: &Write) -> Option<&Token>
    ensures { option_map (λ token. token.now) result ≡ token_of write.now }
{
    match write {
        Write::CreateSchedule { token, .. }
        | Write::UpdateSchedule { token, .. }
        | Write::DeleteSchedule { token, .. }
        | Write::CreateGroup { token, .. }
        | Write::DeleteGroup { token, .. } => token.as_ref(),
    }
}

/// The place of the step that kept the token of a write.
fn kept_place(shelf: &Shelf, write: &Write) -> Option<u64>
    ensures { (kept : List Kept) → Keeps shelf.now kept → result ≡ option_and_then (λ token. option_map {T = Kept} (λ k. k.place) (kept_under kept token)) (token_of write.now) }
{
    match token_of(write) {
        Some(token) => shelf.place(token),
        None => None,
    }
}

/// The first fault of a write over the schedules and groups that are there.
pub fn fault_of(rows: &Rows, write: &Write) -> Option<RowFault>
    ensures { result ≡ row_fault rows.now.rows rows.now.groups write.now }
{
    match rows.check(write) {
        Ok(()) => None,
        Err(fault) => Some(fault),
    }
}

/// The first rule of its kind that a Change breaks.
pub fn change_judged(parts: &Parts, at: Moment, write: &Write) -> Option<Why>
    ensures { Judged parts.now (steps.Change at write.now) result }
{
    work_order::work_is_by_dates();
    step_rules::change_broken(
        is_zone_unknown(&parts.zones, write),
        fault_of(&parts.rows, write),
        kept_place(&parts.shelf, write),
        first_open(&parts.rows, &parts.next, write, at),
    )
}

/// Whether bytes are a zone. It fails only for want of memory.
fn is_readable(alloc: Global, bytes: &Blob) -> Result<bool, AllocError>
    requires { length bytes.now ≤ LONGEST_ZONE }
    ensures { IfOk result (λ readable. readable ≡ (is_some (zone_read bytes.now) && nat_le (length bytes.now) LONGEST_ZONE)) }
{
    match Zone::read(alloc, bytes.as_bytes()) {
        Ok(_) => Ok(true),
        Err(ZoneFault::OutOfMemory) => Err(AllocError),
        Err(_) => Ok(false),
    }
}

/// Whether a name has bytes, or is that of the zone that is built in.
fn is_known(zones: &ZoneShelf, name: &ZoneName) -> bool
    ensures { result ≡ (is_utc name.now || is_some ((zones_in zones.now).bytes name.now)) }
{
    is_utc(name) || zones.bytes(name).is_some()
}

/// The first rule of its kind that a Zone breaks. It fails only for want of memory. A name that has no bytes touches
/// nothing.
pub fn zone_judged(
    parts: &Parts,
    alloc: Global,
    at: Moment,
    name: &ZoneName,
    bytes: &Blob,
) -> Result<Option<Why>, AllocError>
    requires { length bytes.now ≤ LONGEST_ZONE }
    ensures { IfOk result (Judged parts.now (steps.Zone at name.now bytes.now)) }
{
    let _ = at;
    if is_known(&parts.zones, name) {
        return Ok(Some(Why::ZoneKnown));
    }
    let readable = is_readable(alloc, bytes)?;
    Ok(step_rules::zone_broken(false, readable, None))
}
