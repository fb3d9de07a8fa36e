//! The calls that have no body.
ghost use Rattle.std.specs.Prelude.{◌≡◌, [], IfOk, codes};
ghost use Rattle.sched_plain.specs.Groups.{default_name};
ghost use Rattle.plain_words.specs.declared.limits.TheConstants.{LONGEST_ARN};
ghost use Rattle.request_fields.specs.Refusals.{Reads};
ghost use Rattle.request_fields.specs.Words as word;
ghost use Rattle.request_calls.specs.Calls as spec;
ghost use Rattle.request_calls.specs.Queries.{asked_required, asked_or, asked_optional};
ghost use Rattle.request_calls.specs.Validity.{IsSoundCall};

use crate::asked::{
    MOST_ROWS, arn_asked, count_asked, letter_asked, name_asked, place_asked, prefix_asked,
    state_asked, token_asked,
};
use crate::id::execution_word;
use crate::put::{default_group, path_name};
use crate::query::Pair;
use request_fields::{DecodeFault, or_default, or_none, required};
use sched_calls::{Call, Read};
use sched_plain::{Name, Text, Token, Write};
use std::alloc::Global;

fn asked_group(alloc: Global, asked: &[Pair]) -> Result<Name, DecodeFault>
    ensures { Reads result (asked_or (codes "groupName") word.name_word default_name asked.now) }
{
    let found = name_asked(alloc, asked, "groupName")?;
    let default = default_group(alloc)?;
    or_default(alloc, "", "groupName", found, default)
}

fn asked_token(alloc: Global, asked: &[Pair]) -> Result<Option<Token>, DecodeFault>
    ensures { Reads result (asked_optional (codes "clientToken") word.token_word asked.now) }
{
    let found = token_asked(alloc, asked, "clientToken")?;
    or_none(alloc, "", "clientToken", found)
}

fn asked_count(alloc: Global, asked: &[Pair]) -> Result<u8, DecodeFault>
    ensures { Reads result (asked_or (codes "MaxResults") spec.count_word MOST_ROWS asked.now) }
{
    or_default(
        alloc,
        "",
        "MaxResults",
        count_asked(asked, "MaxResults"),
        MOST_ROWS,
    )
}

fn asked_prefix(alloc: Global, asked: &[Pair]) -> Result<Text, DecodeFault>
    ensures { Reads result (asked_or (codes "NamePrefix") word.name_word [] asked.now) }
{
    let found = prefix_asked(alloc, asked, "NamePrefix")?;
    or_default(
        alloc,
        "",
        "NamePrefix",
        found,
        Text::from_string(String::new(alloc)),
    )
}

/// A name that may be left out.
fn asked_name(alloc: Global, asked: &[Pair], name: &str) -> Result<Option<Name>, DecodeFault>
    ensures { Reads result (asked_optional name.now word.name_word asked.now) }
{
    let found = name_asked(alloc, asked, name)?;
    or_none(alloc, "", name, found)
}

fn asked_place(alloc: Global, asked: &[Pair]) -> Result<Option<(Name, Name)>, DecodeFault>
    ensures { Reads result (asked_optional (codes "NextToken") spec.place_word asked.now) }
{
    let found = place_asked(alloc, asked, "NextToken")?;
    or_none(alloc, "", "NextToken", found)
}

fn asked_state(alloc: Global, asked: &[Pair]) -> Result<Option<bool>, DecodeFault>
    ensures { Reads result
        (asked_optional (codes "State") (word.one_of (codes "ENABLED") (codes "DISABLED")) asked.now) }
{
    or_none(alloc, "", "State", state_asked(asked, "State"))
}

fn asked_queue(alloc: Global, asked: &[Pair]) -> Result<Text, DecodeFault>
    ensures { Reads result (asked_required (codes "Queue") (word.text_word 1 LONGEST_ARN) asked.now) }
{
    let found = arn_asked(alloc, asked, "Queue")?;
    required(alloc, "", "Queue", found)
}

fn asked_letter(alloc: Global, asked: &[Pair]) -> Result<u64, DecodeFault>
    ensures { Reads result (asked_or (codes "After") spec.letter_word 0 asked.now) }
{
    or_default(alloc, "", "After", letter_asked(asked, "After"), 0)
}

/// A schedule that is asked for.
pub(crate) fn schedule_read(
    alloc: Global,
    segment: &[u8],
    asked: &[Pair],
) -> Result<Call, DecodeFault>
    ensures value { Reads result (spec.schedule_read segment.now asked.now) }
    ensures sound { IfOk result IsSoundCall }
{
    let name = path_name(alloc, segment)?;
    let group = asked_group(alloc, asked)?;
    Ok(Call::Read(Read::Schedule { group, name }))
}

/// The deletion of a schedule.
pub(crate) fn schedule_deletion(
    alloc: Global,
    segment: &[u8],
    asked: &[Pair],
) -> Result<Call, DecodeFault>
    ensures value { Reads result (spec.schedule_deletion segment.now asked.now) }
    ensures sound { IfOk result IsSoundCall }
{
    let name = path_name(alloc, segment)?;
    let group = asked_group(alloc, asked)?;
    let token = asked_token(alloc, asked)?;
    Ok(Call::Write(Write::DeleteSchedule { group, name, token }))
}

/// The deletion of a group.
pub(crate) fn group_deletion(
    alloc: Global,
    segment: &[u8],
    asked: &[Pair],
) -> Result<Call, DecodeFault>
    ensures value { Reads result (spec.group_deletion segment.now asked.now) }
    ensures sound { IfOk result IsSoundCall }
{
    let name = path_name(alloc, segment)?;
    let token = asked_token(alloc, asked)?;
    Ok(Call::Write(Write::DeleteGroup { name, token }))
}

/// A group that is asked for.
pub(crate) fn group_read(alloc: Global, segment: &[u8]) -> Result<Call, DecodeFault>
    ensures value { Reads result (spec.group_read segment.now) }
    ensures sound { IfOk result IsSoundCall }
{
    let name = path_name(alloc, segment)?;
    Ok(Call::Read(Read::Group { name }))
}

/// A list of schedules.
pub(crate) fn schedule_list(alloc: Global, asked: &[Pair]) -> Result<Call, DecodeFault>
    ensures value { Reads result (spec.schedule_list asked.now) }
    ensures sound { IfOk result IsSoundCall }
{
    let max = asked_count(alloc, asked)?;
    let prefix = asked_prefix(alloc, asked)?;
    let after = asked_place(alloc, asked)?;
    let group = asked_name(alloc, asked, "ScheduleGroup")?;
    let enabled = asked_state(alloc, asked)?;
    Ok(Call::Read(Read::Schedules {
        group,
        prefix,
        enabled,
        after,
        max,
    }))
}

/// A list of groups.
pub(crate) fn group_list(alloc: Global, asked: &[Pair]) -> Result<Call, DecodeFault>
    ensures value { Reads result (spec.group_list asked.now) }
    ensures sound { IfOk result IsSoundCall }
{
    let max = asked_count(alloc, asked)?;
    let prefix = asked_prefix(alloc, asked)?;
    let after = asked_name(alloc, asked, "NextToken")?;
    Ok(Call::Read(Read::Groups { prefix, after, max }))
}

/// An occurrence that is asked for.
pub(crate) fn execution_read(alloc: Global, segment: &[u8]) -> Result<Call, DecodeFault>
    ensures value { Reads result (spec.execution_read segment.now) }
    ensures sound { IfOk result IsSoundCall }
{
    let (inc, instant) = required(alloc, "", "Id", Some(execution_word(segment)))?;
    Ok(Call::Read(Read::Execution { inc, instant }))
}

/// A list of dead letters.
pub(crate) fn letter_list(alloc: Global, asked: &[Pair]) -> Result<Call, DecodeFault>
    ensures value { Reads result (spec.letter_list asked.now) }
    ensures sound { IfOk result IsSoundCall }
{
    let queue = asked_queue(alloc, asked)?;
    let after = asked_letter(alloc, asked)?;
    let max = asked_count(alloc, asked)?;
    Ok(Call::Read(Read::Letters { queue, after, max }))
}
