//! The content of a schedule, as its body says.
ghost use Rattle.std.specs.Prelude.{◌≡◌, IfOk, [], codes};
ghost use Rattle.serde_json.specs.View.{view};
ghost use Rattle.plain_words.specs.declared.limits.TheConstants.{LONGEST_DESCRIPTION};
ghost use Rattle.expressions.specs.Spelling.{Spells};
ghost use Rattle.request_fields.specs.Contents.{content_of, content_with as with};
ghost use Rattle.request_fields.specs.Refusals.{Reads};
ghost use Rattle.request_fields.specs.Rows as row;
ghost use Rattle.request_fields.specs.Validity.{IsSound};
ghost use Rattle.request_fields.specs.Words as word;

use crate::errand::{Errand, read_errand};
use crate::fault::DecodeFault;
use crate::members::text_at;
use crate::rows::or_default;
use crate::timing::{Timing, read_timing};
use sched_plain::{LONGEST_DESCRIPTION, Schedule, Text};
use serde_json::Value;
use std::alloc::Global;

/// Reads the content of a schedule by the table of its fields: the first that breaks its rule is refused.
///
/// The content is valid, and its target is an address.
pub fn read_content(alloc: Global, body: &Value) -> Result<Schedule, DecodeFault>
    ensures value { Reads result (content_of (view body.now)) }
    ensures sound { IfOk result IsSound }
{
    read_parts(alloc, body)
}

fn read_parts(alloc: Global, body: &Value) -> Result<Schedule, DecodeFault>
    ensures value { Reads result (content_of (view body.now)) }
    ensures spells { IfOk result (λ content. Spells content.text content.expr) }
{
    let description = read_description(alloc, body)?;
    let timing = read_timing(alloc, body)?;
    let errand = read_errand(alloc, body)?;
    Ok(content_with(description, timing, errand))
}

fn read_description(alloc: Global, body: &Value) -> Result<Text, DecodeFault>
    ensures { Reads result (row.defaulted [] (codes "Description")
        (row.in_text (word.text_word 0 LONGEST_DESCRIPTION)) [] (view body.now)) }
{
    let found = text_at(alloc, body, "Description", 0, LONGEST_DESCRIPTION)?;
    or_default(
        alloc,
        "",
        "Description",
        found,
        Text::from_string(String::new(alloc)),
    )
}

fn content_with(description: Text, timing: Timing, errand: Errand) -> Schedule
    ensures { result ≡ with description timing errand }
{
    let Timing {
        text,
        expr,
        zone,
        start,
        finish,
        enabled,
        delete_after,
        window,
    } = timing;
    let Errand {
        target,
        role,
        queue,
        input,
        policy,
    } = errand;
    Schedule {
        description,
        text,
        expr,
        zone,
        start,
        finish,
        enabled,
        delete_after,
        window,
        policy,
        target,
        role,
        queue,
        input,
    }
}
