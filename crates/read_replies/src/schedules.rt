//! Reads of schedules: one of them, and pages of their list.
ghost use Rattle.std.specs.Prelude.{◌≡◌, ℕ, IfOk, List};
ghost use Rattle.std.specs.Option.{option_and_then, option_map};
ghost use Rattle.plain_words.specs.Lists.{nth};
ghost use Rattle.sched_plain.specs.History.{History};
ghost use Rattle.sched_calls.specs.Replies.{answer_to, full_name, refusal, schedule_of, schedule_shown, shown_or};
ghost use Rattle.sched_calls.specs.declared.read.Read.TheVariants as reads;
ghost use Rattle.book_parts.specs.Stands.{Stands};
ghost use Rattle.read_replies.specs.Asked.{missing};

use crate::groups::has_group;
use crate::refusals::{no_group, no_schedule};
use book_parts::Parts;
use sched_calls::{ReadReply, Refusal, Reply};
use sched_plain::{Name, Text, TryCopy};
use sched_rows::{KeptRow, Rows};
use std::alloc::{AllocError, Global};

/// A living schedule with its current content.
fn shown(row: &KeptRow) -> Result<Option<ReadReply>, AllocError>
    ensures { IfOk result (λ shown. shown ≡ schedule_shown row.now.row) }
{
    match row.current() {
        Some(content) => Ok(Some(ReadReply::Schedule {
            group: row.group().copy()?,
            name: row.name().copy()?,
            created: row.created(),
            changed: row.changed(),
            content: content.copy()?,
        })),
        None => Ok(None),
    }
}

/// The same of an incarnation.
fn shown_at(rows: &Rows, inc: u32) -> Result<Option<ReadReply>, AllocError>
    ensures { IfOk result (λ shown. shown ≡ option_and_then schedule_shown (nth rows.now.rows inc)) }
{
    match rows.row(inc) {
        Some(row) => shown(row),
        None => Ok(None),
    }
}

/// The same of what lives under a group and a name.
fn schedule_of(rows: &Rows, group: &Name, name: &Name) -> Result<Option<ReadReply>, AllocError>
    ensures { IfOk result (λ shown. shown ≡ schedule_of rows.now.rows group.now name.now) }
{
    match rows.live(group, name) {
        Some(inc) => shown_at(rows, inc),
        None => Ok(None),
    }
}

/// What is shown, or the refusal that names the schedule where there is nothing.
fn shown_or_refused(
    rows: &Rows,
    alloc: Global,
    group: &Name,
    name: &Name,
) -> Result<Result<Reply, Refusal>, AllocError>
    ensures { IfOk result (λ answer. answer ≡ shown_or (refusal 10 404 (full_name group.now name.now)) (schedule_of rows.now.rows group.now name.now)) }
{
    match schedule_of(rows, group, name)? {
        Some(shown) => Ok(Ok(Reply::Read(shown))),
        None => Ok(Err(no_schedule(alloc, group, name)?)),
    }
}

/// The answer to a read of the schedule that lives under a group and a name.
pub fn read_schedule(
    parts: &Parts,
    alloc: Global,
    group: &Name,
    name: &Name,
) -> Result<Result<Reply, Refusal>, AllocError>
    ensures { (h : History) → Stands parts.now h → IfOk result (λ answer. answer ≡ answer_to h (reads.Schedule group.now name.now)) }
{
    if !has_group(&parts.rows, group) {
        return Ok(Err(no_group(alloc, group)?));
    }
    shown_or_refused(&parts.rows, alloc, group, name)
}

/// The group that a list asks for, where it is not there.
fn missing_group<'a>(rows: &Rows, group: &'a Option<Name>) -> Option<&'a Name>
    ensures { option_map (λ name. name.now) result ≡ missing rows.now.groups group.now }
{
    match group {
        Some(name) => if has_group(rows, name) {
            None
        } else {
            Some(name)
        },
        None => None,
    }
}

/// The name that a list begins behind, if it does.
fn place_of(after: &Option<(Name, Name)>) -> Option<(&Name, &Name)>
    ensures { option_map {U = List ℕ × List ℕ} (λ names. (names.0.now, names.1.now)) result ≡ after.now }
{
    match after {
        Some((group, name)) => Some((group, name)),
        None => None,
    }
}

/// The answer to a read of the schedules behind `after`, at most `max`, whose names begin with the prefix: of one group and
/// in one state, where these are asked for.
pub fn read_schedules(
    parts: &Parts,
    alloc: Global,
    group: &Option<Name>,
    prefix: &Text,
    enabled: Option<bool>,
    after: &Option<(Name, Name)>,
    max: u8,
) -> Result<Result<Reply, Refusal>, AllocError>
    ensures { (h : History) → Stands parts.now h → IfOk result (λ answer. answer ≡ answer_to h (reads.Schedules group.now prefix.now enabled after.now max)) }
{
    if let Some(name) = missing_group(&parts.rows, group) {
        return Ok(Err(no_group(alloc, name)?));
    }
    let behind = place_of(after);
    let page = parts
        .rows
        .list(alloc, group.as_ref(), prefix, enabled, behind, max)?;
    Ok(Ok(Reply::Read(ReadReply::Schedules(page))))
}
