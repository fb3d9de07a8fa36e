//! Writes a page of schedules.
ghost use Rattle.std.specs.Prelude.{◌≡◌, ◌-◌, ◌++◌, IfOk, OnOk, codes, length, option_map, slice_get};
ghost use Rattle.std.specs.List.{flat_map};
ghost use Rattle.reply_bodies.specs.Members.{list_of, member_of, object_of};
ghost use Rattle.reply_bodies.specs.Schedules.{list_row_shown, next_schedule, page_members, token_of_row};

use crate::body::Body;
use crate::words::state_word;
use sched_calls::{ListRow, Page, arn_of};
use sched_plain::Text;
use std::alloc::{AllocError, Global};

/// A page of schedules, with the last one's name where more follow.
pub fn put_page(alloc: Global, body: &mut Body, page: &Page) -> Result<(), AllocError>
    ensures { OnOk result (body.new ≡ body.old ++ object_of (page_members page.now)) }
{
    let next = next_schedule(alloc, page)?;
    body.begin_object()?;
    body.text_if_any("NextToken", &next)?;
    put_rows(alloc, body, page.rows.as_slice())?;
    body.end_object()
}

fn next_schedule(alloc: Global, page: &Page) -> Result<Option<Text>, AllocError>
    ensures { IfOk result (λ next. next ≡ next_schedule page.now) }
{
    if page.more {
        return last_of(alloc, page.rows.as_slice());
    }
    Ok(None)
}

/// The name of the last row, as GROUP/NAME; none where there is no row.
fn last_of(alloc: Global, rows: &[ListRow]) -> Result<Option<Text>, AllocError>
    ensures { IfOk result (λ last. last ≡ option_map token_of_row (slice_get rows.now (length rows.now - 1))) }
{
    match rows.last() {
        Some(row) => Ok(Some(token_of(alloc, row)?)),
        None => Ok(None),
    }
}

/// The name by which the next page begins behind a row: GROUP/NAME.
fn token_of(alloc: Global, row: &ListRow) -> Result<Text, AllocError>
    ensures { IfOk result (λ token. token ≡ token_of_row row.now) }
{
    let mut token = String::from_str(alloc, row.group.as_str())?;
    token.push_str("/")?;
    token.push_str(row.name.as_str())?;
    Ok(Text::from_string(token))
}

fn put_rows(alloc: Global, body: &mut Body, rows: &[ListRow]) -> Result<(), AllocError>
    ensures { OnOk result (body.new ≡ body.old ++ member_of (codes "Schedules") (list_of (flat_map list_row_shown rows.now))) }
{
    body.begin_list("Schedules")?;
    put_each_row(alloc, body, rows)?;
    body.end_list()
}

fn put_each_row(alloc: Global, body: &mut Body, rows: &[ListRow]) -> Result<(), AllocError>
    ensures { OnOk result (body.new ≡ body.old ++ flat_map list_row_shown rows.now) }
{
    for row in rows {
        put_row(alloc, body, row)?;
    }
    Ok(())
}

/// A schedule as a list shows it.
fn put_row(alloc: Global, body: &mut Body, row: &ListRow) -> Result<(), AllocError>
    ensures { OnOk result (body.new ≡ body.old ++ list_row_shown row.now) }
{
    let arn = arn_of(alloc, &row.group, &row.name)?;
    body.begin_object()?;
    body.text("Arn", arn.as_str())?;
    body.number("CreationDate", row.created.0)?;
    body.text("GroupName", row.group.as_str())?;
    body.number("LastModificationDate", row.changed.0)?;
    body.text("Name", row.name.as_str())?;
    body.text("State", state_word(row.enabled))?;
    body.begin_member("Target")?;
    body.text("Arn", row.target.as_str())?;
    body.end_object()?;
    body.end_object()
}
