//! The texts by which refusals and replies name what a write is about.
ghost use Rattle.std.specs.Prelude.{◌≡◌, IfOk};
ghost use Rattle.sched_calls.specs.Replies.{full_name, group_arn, group_of, named_by};

use sched_plain::{Name, Text, Write};
use std::alloc::{AllocError, Global};

/// The group that a write names.
fn group_of(write: &Write) -> &Name
    ensures { result.now ≡ group_of write.now }
{
    match write {
        Write::CreateSchedule { group, .. }
        | Write::UpdateSchedule { group, .. }
        | Write::DeleteSchedule { group, .. } => group,
        Write::CreateGroup { name, .. } | Write::DeleteGroup { name, .. } => name,
    }
}

/// A name as text. An `Err` is want of memory.
fn text_of(alloc: Global, name: &Name) -> Result<Text, AllocError>
    ensures { IfOk result (λ text. text ≡ name.now) }
{
    Ok(Text::from_string(String::from_str(alloc, name.as_str())?))
}

/// The group that a write names, as text. An `Err` is want of memory.
pub fn group_text(alloc: Global, write: &Write) -> Result<Text, AllocError>
    ensures { IfOk result (λ text. text ≡ group_of write.now) }
{
    text_of(alloc, group_of(write))
}

/// A schedule as GROUP/NAME. An `Err` is want of memory.
fn full_name(alloc: Global, group: &Name, name: &Name) -> Result<Text, AllocError>
    ensures { IfOk result (λ text. text ≡ full_name group.now name.now) }
{
    let mut text = String::from_str(alloc, group.as_str())?;
    text.push_str("/")?;
    text.push_str(name.as_str())?;
    Ok(Text::from_string(text))
}

/// What a write names: a schedule as GROUP/NAME, or a group. An `Err` is want of memory.
pub fn name_text(alloc: Global, write: &Write) -> Result<Text, AllocError>
    ensures { IfOk result (λ text. text ≡ named_by write.now) }
{
    match write {
        Write::CreateSchedule { group, name, .. } => full_name(alloc, group, name),
        Write::UpdateSchedule { group, name, .. } => full_name(alloc, group, name),
        Write::DeleteSchedule { group, name, .. } => full_name(alloc, group, name),
        Write::CreateGroup { name, .. } => text_of(alloc, name),
        Write::DeleteGroup { name, .. } => text_of(alloc, name),
    }
}

/// The arn of a group. An `Err` is want of memory.
pub fn group_arn(alloc: Global, name: &Name) -> Result<Text, AllocError>
    ensures { IfOk result (λ arn. arn ≡ group_arn name.now) }
{
    let mut arn = String::from_str(
        alloc,
        "arn:aws:scheduler:local:000000000000:schedule-group/",
    )?;
    arn.push_str(name.as_str())?;
    Ok(Text::from_string(arn))
}
