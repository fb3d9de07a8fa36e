//! The reply to a write that is accepted.
ghost use Rattle.std.specs.Prelude.{◌≡◌, IfOk};
ghost use Rattle.sched_calls.specs.Replies.{group_arn, reply_to, schedule_arn};

use crate::naming::group_arn;
use sched_calls::{Reply, arn_of};
use sched_plain::{Name, Write};
use std::alloc::{AllocError, Global};

/// The reply that shows the arn of a schedule.
fn schedule_made(alloc: Global, group: &Name, name: &Name) -> Result<Reply, AllocError>
    ensures { IfOk result (λ reply. reply ≡ Reply.Created (schedule_arn group.now name.now)) }
{
    Ok(Reply::Created {
        arn: arn_of(alloc, group, name)?,
    })
}

/// The reply that shows the arn of a group.
fn group_made(alloc: Global, name: &Name) -> Result<Reply, AllocError>
    ensures { IfOk result (λ reply. reply ≡ Reply.Created (group_arn name.now)) }
{
    Ok(Reply::Created {
        arn: group_arn(alloc, name)?,
    })
}

/// What an accepted write is answered: the arn of what it creates or updates, or nothing where it deletes. An `Err` is want
/// of memory.
pub fn reply_to(alloc: Global, write: &Write) -> Result<Reply, AllocError>
    ensures { IfOk result (λ reply. reply ≡ reply_to write.now) }
{
    match write {
        Write::CreateSchedule { group, name, .. } => schedule_made(alloc, group, name),
        Write::UpdateSchedule { group, name, .. } => schedule_made(alloc, group, name),
        Write::DeleteSchedule { .. } => Ok(Reply::Empty),
        Write::CreateGroup { name, .. } => group_made(alloc, name),
        Write::DeleteGroup { .. } => Ok(Reply::Empty),
    }
}
