//! Writes an occurrence with its attempts.
ghost use Rattle.std.specs.Prelude.{◌≡◌, ◌++◌, OnOk, codes};
ghost use Rattle.std.specs.List.{flat_map};
ghost use Rattle.reply_bodies.specs.Members.{list_of, member_of, object_of};
ghost use Rattle.reply_bodies.specs.Executions.{attempt_shown, execution_members};

use crate::arns::id_of;
use crate::body::Body;
use crate::words::{decided_word, fate_word};
use sched_calls::arn_of;
use sched_plain::{Attempt, Entry, Name};
use std::alloc::{AllocError, Global};

/// An occurrence of a schedule with its attempts.
pub fn put_execution(
    alloc: Global,
    body: &mut Body,
    group: &Name,
    name: &Name,
    inc: u32,
    instant: u64,
    entry: Entry,
    attempts: &[Attempt],
) -> Result<(), AllocError>
    ensures { OnOk result (body.new ≡ body.old ++ object_of (execution_members group.now name.now inc instant entry attempts.now)) }
{
    let arn = arn_of(alloc, group, name)?;
    let id = id_of(alloc, inc, instant)?;
    body.begin_object()?;
    put_attempts(body, attempts)?;
    body.number("Chosen", entry.chosen)?;
    body.text("ExecutionId", id.as_str())?;
    body.number("Instant", instant)?;
    body.text("Outcome", decided_word(entry.outcome))?;
    body.text("ScheduleArn", arn.as_str())?;
    body.end_object()
}

fn put_attempts(body: &mut Body, attempts: &[Attempt]) -> Result<(), AllocError>
    ensures { OnOk result (body.new ≡ body.old ++ member_of (codes "Attempts") (list_of (flat_map attempt_shown attempts.now))) }
{
    body.begin_list("Attempts")?;
    put_each_attempt(body, attempts)?;
    body.end_list()
}

fn put_each_attempt(body: &mut Body, attempts: &[Attempt]) -> Result<(), AllocError>
    ensures { OnOk result (body.new ≡ body.old ++ flat_map attempt_shown attempts.now) }
{
    for attempt in attempts {
        put_attempt(body, *attempt)?;
    }
    Ok(())
}

fn put_attempt(body: &mut Body, attempt: Attempt) -> Result<(), AllocError>
    ensures { OnOk result (body.new ≡ body.old ++ attempt_shown attempt) }
{
    body.begin_object()?;
    body.number("Begun", attempt.begun.0)?;
    body.number("Number", u64::from(attempt.number))?;
    body.text("Verdict", fate_word(attempt.fate))?;
    body.end_object()
}
