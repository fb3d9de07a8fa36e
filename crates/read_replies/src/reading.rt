//! The answer to a read.
ghost use Rattle.std.specs.Prelude.{◌≡◌, IfOk};
ghost use Rattle.sched_plain.specs.History.{History};
ghost use Rattle.sched_calls.specs.Replies.{answer_to};
ghost use Rattle.book_parts.specs.Stands.{Stands};

use crate::executions::read_execution;
use crate::groups::{read_group, read_groups};
use crate::letters::read_letters;
use crate::schedules::{read_schedule, read_schedules};
use book_parts::Parts;
use sched_calls::{Read, Refusal, Reply};
use std::alloc::{AllocError, Global};

/// The answer to a read over the history that the parts stand for: the first rule that it breaks, or what it shows. An
/// `Err` is want of memory.
pub fn reply(
    parts: &Parts,
    alloc: Global,
    read: &Read,
) -> Result<Result<Reply, Refusal>, AllocError>
    ensures { (h : History) → Stands parts.now h → IfOk result (λ answer. answer ≡ answer_to h read.now) }
{
    match read {
        Read::Schedule { group, name } => read_schedule(parts, alloc, group, name),
        Read::Group { name } => read_group(parts, alloc, name),
        Read::Schedules {
            group,
            prefix,
            enabled,
            after,
            max,
        } => read_schedules(parts, alloc, group, prefix, *enabled, after, *max),
        Read::Groups { prefix, after, max } => read_groups(parts, alloc, prefix, after, *max),
        Read::Execution { inc, instant } => read_execution(parts, alloc, *inc, *instant),
        Read::Letters { queue, after, max } => read_letters(parts, alloc, queue, *after, *max),
    }
}
