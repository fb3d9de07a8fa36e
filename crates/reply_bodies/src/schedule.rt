//! Writes one schedule with its whole content.
ghost use Rattle.std.specs.Prelude.{◌≡◌, ◌++◌, OnOk, codes};
ghost use Rattle.reply_bodies.specs.Members.{member_of, object_of, text_if_any};
ghost use Rattle.reply_bodies.specs.Schedules.{described, flexible_members, off_members, policy_shown, queue_if_any, schedule_members, target_members, window_members};

use crate::body::Body;
use crate::words::{action_word, state_word};
use sched_calls::arn_of;
use sched_plain::{Moment, Name, Policy, Schedule, Text};
use std::alloc::{AllocError, Global};

/// A schedule with its moments of creation and of the last change.
pub fn put_schedule(
    alloc: Global,
    body: &mut Body,
    group: &Name,
    name: &Name,
    created: Moment,
    changed: Moment,
    content: &Schedule,
) -> Result<(), AllocError>
    ensures { OnOk result (body.new ≡ body.old ++ object_of (schedule_members group.now name.now created changed content.now)) }
{
    let arn = arn_of(alloc, group, name)?;
    body.begin_object()?;
    body.text("ActionAfterCompletion", action_word(content.delete_after))?;
    body.text("Arn", arn.as_str())?;
    body.number("CreationDate", created.0)?;
    put_description(body, &content.description)?;
    body.number_if_any("EndDate", content.finish)?;
    put_window(body, content.window)?;
    body.text("GroupName", group.as_str())?;
    body.number("LastModificationDate", changed.0)?;
    body.text("Name", name.as_str())?;
    body.text("ScheduleExpression", content.text.as_str())?;
    body.text("ScheduleExpressionTimezone", content.zone.as_str())?;
    body.number_if_any("StartDate", content.start)?;
    body.text("State", state_word(content.enabled))?;
    put_target(body, content)?;
    body.end_object()
}

/// The description, left out where it is empty.
fn put_description(body: &mut Body, description: &Text) -> Result<(), AllocError>
    ensures { OnOk result (body.new ≡ body.old ++ text_if_any (codes "Description") (described description.now)) }
{
    if description.as_bytes().is_empty() {
        return Ok(());
    }
    body.text("Description", description.as_str())
}

/// The flexible window of so many minutes; 0 is OFF.
fn put_window(body: &mut Body, minutes: u16) -> Result<(), AllocError>
    ensures { OnOk result (body.new ≡ body.old ++ member_of (codes "FlexibleTimeWindow") (object_of (window_members minutes))) }
{
    if minutes == 0 {
        return put_off(body);
    }
    put_flexible(body, minutes)
}

fn put_off(body: &mut Body) -> Result<(), AllocError>
    ensures { OnOk result (body.new ≡ body.old ++ member_of (codes "FlexibleTimeWindow") (object_of off_members)) }
{
    body.begin_member("FlexibleTimeWindow")?;
    body.text("Mode", "OFF")?;
    body.end_object()
}

fn put_flexible(body: &mut Body, minutes: u16) -> Result<(), AllocError>
    ensures { OnOk result (body.new ≡ body.old ++ member_of (codes "FlexibleTimeWindow") (object_of (flexible_members minutes))) }
{
    body.begin_member("FlexibleTimeWindow")?;
    body.number("MaximumWindowInMinutes", u64::from(minutes))?;
    body.text("Mode", "FLEXIBLE")?;
    body.end_object()
}

/// Where and what the schedule sends.
fn put_target(body: &mut Body, content: &Schedule) -> Result<(), AllocError>
    ensures { OnOk result (body.new ≡ body.old ++ member_of (codes "Target") (object_of (target_members content.now))) }
{
    body.begin_member("Target")?;
    body.text("Arn", content.target.as_str())?;
    put_queue(body, &content.queue)?;
    body.text_if_any("Input", &content.input)?;
    put_policy(body, content.policy)?;
    body.text("RoleArn", content.role.as_str())?;
    body.end_object()
}

/// The dead-letter queue, left out where none is named.
fn put_queue(body: &mut Body, queue: &Option<Text>) -> Result<(), AllocError>
    ensures { OnOk result (body.new ≡ body.old ++ queue_if_any queue.now) }
{
    match queue {
        Some(queue) => put_named_queue(body, queue),
        None => Ok(()),
    }
}

fn put_named_queue(body: &mut Body, queue: &Text) -> Result<(), AllocError>
    ensures { OnOk result (body.new ≡ body.old ++ queue_if_any (Some queue.now)) }
{
    body.begin_member("DeadLetterConfig")?;
    body.text("Arn", queue.as_str())?;
    body.end_object()
}

/// How often and for how long an occurrence is tried again.
fn put_policy(body: &mut Body, policy: Policy) -> Result<(), AllocError>
    ensures { OnOk result (body.new ≡ body.old ++ member_of (codes "RetryPolicy") (policy_shown policy)) }
{
    body.begin_member("RetryPolicy")?;
    body.number("MaximumEventAgeInSeconds", u64::from(policy.age))?;
    body.number("MaximumRetryAttempts", u64::from(policy.retries))?;
    body.end_object()
}
