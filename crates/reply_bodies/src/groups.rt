//! Writes a group, and a page of groups.
ghost use Rattle.std.specs.Prelude.{◌≡◌, ◌-◌, ◌++◌, IfOk, OnOk, codes, length, option_map, slice_get};
ghost use Rattle.std.specs.List.{flat_map};
ghost use Rattle.reply_bodies.specs.Members.{list_of, member_of, object_of};
ghost use Rattle.reply_bodies.specs.Groups.{group_page_members, group_shown, name_of_row, next_group};

use crate::arns::group_arn_of;
use crate::body::Body;
use sched_calls::GroupPage;
use sched_plain::{GroupRow, Name, Text};
use std::alloc::{AllocError, Global};

/// A group, which is never modified.
pub fn put_group(alloc: Global, body: &mut Body, row: &GroupRow) -> Result<(), AllocError>
    ensures { OnOk result (body.new ≡ body.old ++ group_shown row.now) }
{
    let arn = group_arn_of(alloc, &row.name)?;
    body.begin_object()?;
    body.text("Arn", arn.as_str())?;
    body.number("CreationDate", row.created.0)?;
    body.number("LastModificationDate", row.created.0)?;
    body.text("Name", row.name.as_str())?;
    body.text("State", "ACTIVE")?;
    body.end_object()
}

/// A page of groups, with the last one's name where more follow.
pub fn put_group_page(alloc: Global, body: &mut Body, page: &GroupPage) -> Result<(), AllocError>
    ensures { OnOk result (body.new ≡ body.old ++ object_of (group_page_members page.now)) }
{
    let next = next_group(alloc, page)?;
    body.begin_object()?;
    body.text_if_any("NextToken", &next)?;
    put_groups(alloc, body, page.groups.as_slice())?;
    body.end_object()
}

fn next_group(alloc: Global, page: &GroupPage) -> Result<Option<Text>, AllocError>
    ensures { IfOk result (λ next. next ≡ next_group page.now) }
{
    if page.more {
        return last_of(alloc, page.groups.as_slice());
    }
    Ok(None)
}

/// The name of the last group; none where there is no group.
fn last_of(alloc: Global, groups: &[GroupRow]) -> Result<Option<Text>, AllocError>
    ensures { IfOk result (λ last. last ≡ option_map name_of_row (slice_get groups.now (length groups.now - 1))) }
{
    match groups.last() {
        Some(row) => Ok(Some(text_of(alloc, &row.name)?)),
        None => Ok(None),
    }
}

fn text_of(alloc: Global, name: &Name) -> Result<Text, AllocError>
    ensures { IfOk result (λ text. text ≡ name.now) }
{
    Ok(Text::from_string(String::from_str(alloc, name.as_str())?))
}

fn put_groups(alloc: Global, body: &mut Body, groups: &[GroupRow]) -> Result<(), AllocError>
    ensures { OnOk result (body.new ≡ body.old ++ member_of (codes "ScheduleGroups") (list_of (flat_map group_shown groups.now))) }
{
    body.begin_list("ScheduleGroups")?;
    put_each_group(alloc, body, groups)?;
    body.end_list()
}

fn put_each_group(alloc: Global, body: &mut Body, groups: &[GroupRow]) -> Result<(), AllocError>
    ensures { OnOk result (body.new ≡ body.old ++ flat_map group_shown groups.now) }
{
    for row in groups {
        put_group(alloc, body, row)?;
    }
    Ok(())
}
