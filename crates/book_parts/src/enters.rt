//! What an incarnation is to enter, and the rules of an Enter.
ghost use Rattle.std.specs.Prelude.{◌≡◌, ◌≤◌, ℕ, Some, None, IfOk, IfSome, IfNone, take, length, List};
ghost use Rattle.sched_plain.specs.declared.step.Step.TheVariants as steps;
ghost use Rattle.sched_plain.specs.History.{History};
ghost use Rattle.sched_plain.specs.Marks.{unentered};
ghost use Rattle.next_dates.specs.NextInstants.{next_instant};
ghost use Rattle.sched_plain.specs.Validity.{IsContent};
ghost use Rattle.zone_occ.specs.ZoneText.{utc as built_in};
ghost use Rattle.zone_occ.specs.ZoneCalendar.{zone_under};
ghost use Rattle.book_parts.specs.Contents.{AreContents};
ghost use Rattle.book_parts.specs.Entering.{read_in, IsKnown, AreInstants, AreOfRow};
ghost use Rattle.book_parts.specs.Stands.{Stands, Judged, calendar};

use crate::changes::is_utc;
use crate::parts::Parts;
use crate::windows::first_outside;
use plain_words::{Items, ZoneName};
use sched_plain::{Moment, Pairs, Schedule, Why};
use sched_rows::KeptRow;
use std::alloc::{AllocError, Global};
use work_order::only_living_schedules_act;
use zone_occ::Zone;
use zone_shelf::ZoneShelf;

/// The zone with a name: the built-in one for UTC, else what its bytes are. None where it has no bytes.
pub fn zone_named<'a>(utc: &'a Zone, zones: &'a ZoneShelf, name: &ZoneName) -> Option<&'a Zone>
    requires { utc.now ≡ built_in }
    ensures some { IfSome result (λ zone. zone_under (read_in zones.now name.now) ≡ Some zone.now) }
    ensures none { IfNone result (IsKnown zones.now name.now → ⊥) }
{
    if is_utc(name) {
        return Some(utc);
    }
    zones.zone(name)
}

/// The first so many instants of a content from a moment up to another.
fn instants_of(
    utc: &Zone,
    zones: &ZoneShelf,
    alloc: Global,
    content: &Schedule,
    created: Moment,
    from: u64,
    now: Moment,
    most: u16,
) -> Result<Items<u64>, AllocError>
    requires utc { utc.now ≡ built_in }
    requires content { IsContent content.now }
    requires most { 1 ≤ most }
    ensures { IsKnown zones.now content.now.zone → IfOk result (AreInstants zones.now content.now created.0 from now.0 most) }
{
    match zone_named(utc, zones, &content.zone) {
        Some(zone) => schedule_clock::instants(alloc, content, zone, created, from, now.0, most),
        None => Ok(Items::new(alloc)),
    }
}

/// The same of the current content of a row.
fn instants_of_row(
    utc: &Zone,
    zones: &ZoneShelf,
    alloc: Global,
    row: &KeptRow,
    from: u64,
    now: Moment,
    most: u16,
) -> Result<Items<u64>, AllocError>
    requires utc { utc.now ≡ built_in }
    requires contents { AreContents row.now.row.revisions }
    requires most { 1 ≤ most }
    ensures { IfOk result (AreOfRow zones.now row.now.row from now.0 most) }
{
    match row.current() {
        Some(content) => instants_of(utc, zones, alloc, content, row.created(), from, now, most),
        None => Ok(Items::new(alloc)),
    }
}

/// The same of an incarnation whose next instant this is.
fn instants_from(
    parts: &Parts,
    alloc: Global,
    inc: u32,
    from: u64,
    now: Moment,
    most: u16,
) -> Result<Items<u64>, AllocError>
    requires { 1 ≤ most }
    ensures { (h : History) → Stands parts.now h → next_instant calendar h inc ≡ Some from → IfOk result (λ all. all ≡ take most (unentered calendar h inc now.0)) }
{
    only_living_schedules_act();
    match parts.rows.row(inc) {
        Some(row) => instants_of_row(&parts.utc, &parts.zones, alloc, row, from, now, most),
        None => Ok(Items::new(alloc)),
    }
}

/// The first so many instants of an incarnation up to a moment that have no entry. It fails only for want of memory.
pub fn first_unentered(
    parts: &Parts,
    alloc: Global,
    inc: u32,
    now: Moment,
    most: u16,
) -> Result<Items<u64>, AllocError>
    requires { 1 ≤ most }
    ensures { (h : History) → Stands parts.now h → IfOk result (λ all. all ≡ take most (unentered calendar h inc now.0)) }
{
    match parts.next.get(inc) {
        Some(from) => instants_from(parts, alloc, inc, from, now, most),
        None => Ok(Items::new(alloc)),
    }
}

/// The first rule of its kind that an Enter breaks. It fails only for want of memory.
pub fn enter_judged(
    parts: &Parts,
    alloc: Global,
    at: Moment,
    inc: u32,
    pairs: &Pairs,
) -> Result<Option<Why>, AllocError>
    requires some { 1 ≤ length pairs.now }
    requires few { length pairs.now ≤ 256 }
    ensures { IfOk result (Judged parts.now (steps.Enter at inc pairs.now)) }
{
    let wanted = first_unentered(parts, alloc, inc, at, pairs.len() as u16)?;
    let astray = step_rules::first_astray(pairs.as_slice(), wanted.as_slice());
    Ok(step_rules::enter_broken(astray, first_outside(&parts.rows, inc, pairs.as_slice())))
}
