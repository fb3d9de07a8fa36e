//! Reads of groups: one of them, and pages of their list.
ghost use Rattle.std.specs.Prelude.{◌≡◌, IfOk};
ghost use Rattle.sched_plain.specs.History.{History};
ghost use Rattle.std.specs.List.{find};
ghost use Rattle.sched_plain.specs.Groups.{has_group, is_named};
ghost use Rattle.sched_calls.specs.Replies.{answer_to};
ghost use Rattle.sched_calls.specs.declared.read.Read.TheVariants as reads;
ghost use Rattle.book_parts.specs.Stands.{Stands};

use crate::refusals::no_group;
use book_parts::Parts;
use sched_calls::{ReadReply, Refusal, Reply};
use sched_plain::{GroupRow, Name, Text, TryCopy};
use sched_rows::Rows;
use std::alloc::{AllocError, Global};

/// Whether a group of a name is there.
pub fn has_group(rows: &Rows, name: &Name) -> bool
    ensures { result ≡ has_group rows.now.groups name.now }
{
    rows.group(name).is_some()
}

/// The row of the group of a name, where it is there.
fn group_row(rows: &Rows, name: &Name) -> Result<Option<GroupRow>, AllocError>
    ensures { IfOk result (λ row. row ≡ find (is_named name.now) rows.now.groups) }
{
    match rows.group(name) {
        Some(created) => Ok(Some(GroupRow {
            name: name.copy()?,
            created,
        })),
        None => Ok(None),
    }
}

/// The answer to a read of the group of a name.
pub fn read_group(
    parts: &Parts,
    alloc: Global,
    name: &Name,
) -> Result<Result<Reply, Refusal>, AllocError>
    ensures { (h : History) → Stands parts.now h → IfOk result (λ answer. answer ≡ answer_to h (reads.Group name.now)) }
{
    match group_row(&parts.rows, name)? {
        Some(row) => Ok(Ok(Reply::Read(ReadReply::Group(row)))),
        None => Ok(Err(no_group(alloc, name)?)),
    }
}

/// The answer to a read of the groups behind `after`, at most `max`, whose names begin with the prefix.
pub fn read_groups(
    parts: &Parts,
    alloc: Global,
    prefix: &Text,
    after: &Option<Name>,
    max: u8,
) -> Result<Result<Reply, Refusal>, AllocError>
    ensures { (h : History) → Stands parts.now h → IfOk result (λ answer. answer ≡ answer_to h (reads.Groups prefix.now after.now max)) }
{
    let page = parts.rows.groups(alloc, prefix, after.as_ref(), max)?;
    Ok(Ok(Reply::Read(ReadReply::Groups(page))))
}
