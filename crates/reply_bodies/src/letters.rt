//! Writes dead letters of a queue.
ghost use Rattle.std.specs.Prelude.{◌≡◌, ◌++◌, OnOk};
ghost use Rattle.std.specs.List.{flat_map};
ghost use Rattle.reply_bodies.specs.Executions.{letter_shown, letters_shown};

use crate::arns::id_of;
use crate::body::Body;
use crate::words::outcome_word;
use sched_calls::{LetterRow, arn_of};
use std::alloc::{AllocError, Global};

/// Dead letters of a queue, in order.
pub fn put_letters(alloc: Global, body: &mut Body, rows: &[LetterRow]) -> Result<(), AllocError>
    ensures { OnOk result (body.new ≡ body.old ++ letters_shown rows.now) }
{
    body.begin_object()?;
    body.begin_list("Letters")?;
    put_rows(alloc, body, rows)?;
    body.end_list()?;
    body.end_object()
}

fn put_rows(alloc: Global, body: &mut Body, rows: &[LetterRow]) -> Result<(), AllocError>
    ensures { OnOk result (body.new ≡ body.old ++ flat_map letter_shown rows.now) }
{
    for row in rows {
        put_letter(alloc, body, row)?;
    }
    Ok(())
}

fn put_letter(alloc: Global, body: &mut Body, row: &LetterRow) -> Result<(), AllocError>
    ensures { OnOk result (body.new ≡ body.old ++ letter_shown row.now) }
{
    let arn = arn_of(alloc, &row.group, &row.name)?;
    let id = id_of(alloc, row.inc, row.instant)?;
    body.begin_object()?;
    body.text("ExecutionId", id.as_str())?;
    body.number("Number", row.number)?;
    body.text("Reason", outcome_word(row.reason))?;
    body.text("ScheduleArn", arn.as_str())?;
    body.end_object()
}
