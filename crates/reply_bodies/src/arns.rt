//! The names by which bodies call groups and occurrences, and the member that shows a new arn.
ghost use Rattle.std.specs.Prelude.{◌≡◌, IfOk, nat_eq, string_bytes, codes};
ghost use Rattle.std.specs.List.{starts_with};
ghost use Rattle.plain_words.specs.Ids.{id_text};
ghost use Rattle.sched_calls.specs.Replies.{group_arn};
ghost use Rattle.reply_bodies.specs.Words.{created_member};

use sched_plain::{Name, Text, print_id};
use std::alloc::{AllocError, Global};

/// What each arn of a group begins with.
const GROUP_ARN: &str = "arn:aws:scheduler:local:000000000000:schedule-group/";

/// The arn of a group. An `Err` is want of memory.
pub fn group_arn_of(alloc: Global, name: &Name) -> Result<Text, AllocError>
    ensures { IfOk result (λ arn. arn ≡ group_arn name.now) }
{
    let mut arn = String::from_str(alloc, GROUP_ARN)?;
    arn.push_str(name.as_str())?;
    Ok(Text::from_string(arn))
}

fn is_group_arn(arn: &str) -> bool
    ensures { result ≡ starts_with nat_eq arn.now GROUP_ARN.now }
{
    arn.starts_with(GROUP_ARN)
}

/// The member that shows the arn of what was created or updated.
pub fn created_member(arn: &str) -> &'static str
    ensures { result.now ≡ created_member arn.now }
{
    if is_group_arn(arn) {
        "ScheduleGroupArn"
    } else {
        "ScheduleArn"
    }
}

/// The id of an occurrence as text. An `Err` is want of memory.
pub fn id_of(alloc: Global, inc: u32, instant: u64) -> Result<Text, AllocError>
    ensures { IfOk result (λ id. id ≡ id_text inc instant) }
{
    let id = String::from_utf8_lossy(alloc, &print_id(inc, instant))?;
    Ok(Text::from_string(id))
}
