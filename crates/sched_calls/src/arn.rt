//! The name by which answers and requests to targets call a schedule.
ghost use Rattle.std.specs.Prelude.{◌≡◌, IfOk};
ghost use Rattle.sched_calls.specs.Replies.{schedule_arn};

use sched_plain::{Name, Text};
use std::alloc::{AllocError, Global};

/// The arn of a schedule. An `Err` is want of memory.
pub fn arn_of(alloc: Global, group: &Name, name: &Name) -> Result<Text, AllocError>
    ensures { IfOk result (λ arn. arn ≡ schedule_arn group.now name.now) }
{
    let mut arn = String::from_str(alloc, "arn:aws:scheduler:local:000000000000:schedule/")?;
    arn.push_str(group.as_str())?;
    arn.push_str("/")?;
    arn.push_str(name.as_str())?;
    Ok(Text::from_string(arn))
}
