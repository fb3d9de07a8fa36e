//! What a schedule says, read in three parts.
ghost use Rattle.std.specs.Prelude.{◌≡◌, ◌++◌, IfOk};
ghost use Rattle.expressions.specs.Spelling.{Spells};
ghost use Rattle.step_codec.specs.Faults.{Reads};
ghost use Rattle.step_codec.specs.Format as format;
ghost use Rattle.step_codec.specs.Parts.{target_cells, texts_cells, timing_cells};
ghost use Rattle.step_codec.specs.Payload.{IsExactContent, IsFilled, content_cells};
ghost use Rattle.step_codec.specs.Tables.{walk};

use crate::dates::date;
use crate::fault::FieldFault;
use crate::fields::{age, flag, retries, window};
use crate::words::{arn, description, expression, input, queue, zone_name};
use sched_plain::{Expr, Policy, Schedule, Text, ZoneName};
use std::alloc::Global;

/// The texts that say when.
#[derive(Debug, Drop)]
struct Texts {
    description: Text,
    text: Text,
    expr: Expr,
    zone: ZoneName,
}

/// The times, switches and limits.
#[derive(Debug, Clone, Copy)]
struct Timing {
    start: Option<u64>,
    finish: Option<u64>,
    enabled: bool,
    delete_after: bool,
    window: u16,
    policy: Policy,
}

/// What is sent, and where to.
#[derive(Debug, Drop)]
struct Target {
    target: Text,
    role: Text,
    queue: Option<Text>,
    input: Option<Text>,
}

fn read_texts(alloc: Global, bytes: &[u8]) -> Result<(Texts, &[u8]), FieldFault>
    ensures read { Reads (λ x. (texts_cells x.0, x.1.now)) result (walk format.texts_table bytes.now) }
    ensures spells { IfOk result (λ x. Spells x.0.text x.0.expr) }
{
    let (description, bytes) = description(alloc, bytes)?;
    let ((text, expr), bytes) = expression(alloc, bytes)?;
    let (zone, bytes) = zone_name(alloc, bytes)?;
    let texts = Texts {
        description,
        text,
        expr,
        zone,
    };
    Ok((texts, bytes))
}

fn read_timing(bytes: &[u8]) -> Result<(Timing, &[u8]), FieldFault>
    ensures { Reads (λ x. (timing_cells x.0, x.1.now)) result (walk format.timing_table bytes.now) }
{
    let (start, bytes) = date(bytes)?;
    let (finish, bytes) = date(bytes)?;
    let (enabled, bytes) = flag(bytes)?;
    let (delete_after, bytes) = flag(bytes)?;
    let (window, bytes) = window(bytes)?;
    let (retries, bytes) = retries(bytes)?;
    let (age, bytes) = age(bytes)?;
    let timing = Timing {
        start,
        finish,
        enabled,
        delete_after,
        window,
        policy: Policy { retries, age },
    };
    Ok((timing, bytes))
}

fn read_target(alloc: Global, bytes: &[u8]) -> Result<(Target, &[u8]), FieldFault>
    ensures read { Reads (λ x. (target_cells x.0, x.1.now)) result (walk format.target_table bytes.now) }
    ensures queue { IfOk result (λ x. IsFilled x.0.queue) }
    ensures input { IfOk result (λ x. IsFilled x.0.input) }
{
    let (target, bytes) = arn(alloc, bytes)?;
    let (role, bytes) = arn(alloc, bytes)?;
    let (queue, bytes) = queue(alloc, bytes)?;
    let (input, bytes) = input(alloc, bytes)?;
    let target = Target {
        target,
        role,
        queue,
        input,
    };
    Ok((target, bytes))
}

/// What a schedule says.
#[tactic(auto, using(crate::proofs::Joining::walk_content))]
pub(crate) fn content(alloc: Global, bytes: &[u8]) -> Result<(Schedule, &[u8]), FieldFault>
    ensures read { Reads (λ x. (content_cells x.0, x.1.now)) result (walk format.content_table bytes.now) }
    ensures exact { IfOk result (λ x. IsExactContent x.0) }
{
    let (texts, bytes) = read_texts(alloc, bytes)?;
    let (timing, bytes) = read_timing(bytes)?;
    let (target, bytes) = read_target(alloc, bytes)?;
    Ok((joined(texts, timing, target), bytes))
}

/// The three parts as one content.
fn joined(texts: Texts, timing: Timing, target: Target) -> Schedule
    ensures cells { content_cells result ≡ texts_cells texts ++ (timing_cells timing ++ target_cells target) }
    ensures exact { Spells texts.text texts.expr → IsFilled target.queue → IsFilled target.input → IsExactContent result }
{
    let Texts {
        description,
        text,
        expr,
        zone,
    } = texts;
    let Target {
        target,
        role,
        queue,
        input,
    } = target;
    Schedule {
        description,
        text,
        expr,
        zone,
        start: timing.start,
        finish: timing.finish,
        enabled: timing.enabled,
        delete_after: timing.delete_after,
        window: timing.window,
        policy: timing.policy,
        target,
        role,
        queue,
        input,
    }
}
