//! The refusals of writes: by a token that another write kept, by the schedules and groups that are there, and by a zone that
//! cannot be had.
ghost use Rattle.std.specs.Prelude.{◌≡◌, IfOk};
ghost use Rattle.std.specs.Fmt.{decimal};
ghost use Rattle.sched_calls.specs.Replies.{group_of, named_by, refusal, row_refusal, token_refusal, zone_refusal};

use crate::naming::{group_text, name_text};
use sched_calls::Refusal;
use sched_plain::{RowFault, Text, Write};
use std::alloc::{AllocError, Global};

/// The rule that no other write may have kept the token.
const TOKEN_RULE: u8 = 8;
/// The rule of the group that is named.
const GROUP_RULE: u8 = 9;
/// The rule of the schedule that is named.
const SCHEDULE_RULE: u8 = 10;
/// The rule of how many schedules and groups there may be.
const COUNT_RULE: u8 = 11;
/// The rule of the zone of a content.
const ZONE_RULE: u8 = 12;

/// The refusal of a write whose token another write kept, by the step at a place, counted from 1. An `Err` is want of
/// memory.
pub fn token_refusal(alloc: Global, place: u64) -> Result<Refusal, AllocError>
    ensures { IfOk result (λ refused. refused ≡ token_refusal place) }
{
    Ok(Refusal {
        rule: TOKEN_RULE,
        status: 409,
        subject: Text::from_string(format!(in alloc; "step {place}")?),
    })
}

/// A refusal about the group that a write names.
fn group_refusal(alloc: Global, status: u16, write: &Write) -> Result<Refusal, AllocError>
    ensures { IfOk result (λ refused. refused ≡ refusal 9 status (group_of write.now)) }
{
    Ok(Refusal {
        rule: GROUP_RULE,
        status,
        subject: group_text(alloc, write)?,
    })
}

/// A refusal about the schedule that a write names.
fn schedule_refusal(alloc: Global, status: u16, write: &Write) -> Result<Refusal, AllocError>
    ensures { IfOk result (λ refused. refused ≡ refusal 10 status (named_by write.now)) }
{
    Ok(Refusal {
        rule: SCHEDULE_RULE,
        status,
        subject: name_text(alloc, write)?,
    })
}

/// A refusal about how many there are.
fn count_refusal(alloc: Global, count: u64) -> Result<Refusal, AllocError>
    ensures { IfOk result (λ refused. refused ≡ refusal 11 402 (decimal count)) }
{
    Ok(Refusal {
        rule: COUNT_RULE,
        status: 402,
        subject: Text::from_string(count.to_string(alloc)?),
    })
}

/// The refusal of a write that has a fault over the schedules and groups that are there. An `Err` is want of memory.
pub fn row_refusal(alloc: Global, write: &Write, fault: RowFault) -> Result<Refusal, AllocError>
    ensures { IfOk result (λ refused. refused ≡ row_refusal write.now fault) }
{
    match fault {
        RowFault::DefaultGroup => group_refusal(alloc, 400, write),
        RowFault::NoGroup => group_refusal(alloc, 404, write),
        RowFault::GroupExists => group_refusal(alloc, 409, write),
        RowFault::Missing => schedule_refusal(alloc, 404, write),
        RowFault::Exists => schedule_refusal(alloc, 409, write),
        RowFault::TooMany { count } => count_refusal(alloc, count),
    }
}

/// The refusal of a write whose zone cannot be had. An `Err` is want of memory.
pub fn zone_refusal(alloc: Global) -> Result<Refusal, AllocError>
    ensures { IfOk result (λ refused. refused ≡ zone_refusal) }
{
    Ok(Refusal {
        rule: ZONE_RULE,
        status: 400,
        subject: Text::from_string(String::from_str(alloc, "zone")?),
    })
}
