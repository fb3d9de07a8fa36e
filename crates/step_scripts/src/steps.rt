//! Steps, in words.
ghost use Rattle.std.specs.Prelude.{IfOk, IfSome};
ghost use Rattle.sched_plain.specs.Validity.{IsValid};

use crate::pairs::pairs_of;
use crate::valid::is_valid;
use crate::words::Words;
use crate::writes::write_of;
use plain_words::{Blob, LAST_MOMENT, LEASE_SECONDS, Moment, Verdict, ZoneName};
use sched_plain::{Reason, Step};
use std::alloc::{AllocError, Global};

/// The steps that are numbers alone.
fn plain_step(at: Moment, verb: &str, words: &mut Words) -> Option<Step> {
    match verb {
        "boot" => Some(Step::Boot { at }),
        "lease" => lease(at, words),
        "release" => release(at, words),
        "begin" => begin(at, words),
        "end" => end(at, words),
        "close" => close(at, words),
        "complete" => Some(Step::Complete {
            at,
            inc: words.medium()?,
        }),
        "swept" => Some(Step::Swept {
            at,
            shard: words.small()?,
        }),
        _ => None,
    }
}

fn lease(at: Moment, words: &mut Words) -> Option<Step> {
    let shard = words.small()?;
    let worker = words.medium()?;
    let epoch = words.number()?;
    Some(Step::Lease {
        at,
        shard,
        worker,
        epoch,
        until: at.0.saturating_add(LEASE_SECONDS),
    })
}

fn release(at: Moment, words: &mut Words) -> Option<Step> {
    let shard = words.small()?;
    let worker = words.medium()?;
    let epoch = words.number()?;
    Some(Step::Release {
        at,
        shard,
        worker,
        epoch,
    })
}

fn begin(at: Moment, words: &mut Words) -> Option<Step> {
    let inc = words.medium()?;
    let instant = words.number()?;
    let number = words.short()?;
    let epoch = words.number()?;
    Some(Step::Begin {
        at,
        inc,
        instant,
        number,
        epoch,
    })
}

fn end(at: Moment, words: &mut Words) -> Option<Step> {
    let inc = words.medium()?;
    let instant = words.number()?;
    let number = words.short()?;
    let status = words.short()?;
    Some(Step::End {
        at,
        inc,
        instant,
        number,
        verdict: verdict_of(status),
        status,
    })
}

/// The verdict that goes with a status.
pub(crate) fn verdict_of(status: u16) -> Verdict {
    match status {
        200..=299 => Verdict::Done,
        0..=199 | 408 | 429 | 500..=599 => Verdict::Retry,
        _ => Verdict::Final,
    }
}

fn close(at: Moment, words: &mut Words) -> Option<Step> {
    let inc = words.medium()?;
    let instant = words.number()?;
    let reason = match words.next() {
        "attempts" => Reason::Attempts,
        "age" => Reason::Age,
        _ => return None,
    };
    Some(Step::Close {
        at,
        inc,
        instant,
        reason,
    })
}

fn zone(alloc: Global, at: Moment, words: &mut Words) -> Result<Option<Step>, AllocError> {
    let Ok(name) = ZoneName::read(alloc, words.next().as_bytes()) else {
        return Ok(None);
    };
    let bytes = Blob::from_vec(words.rest().as_bytes().to_vec(alloc)?);
    Ok(Some(Step::Zone { at, name, bytes }))
}

fn enter(alloc: Global, at: Moment, words: &mut Words) -> Result<Option<Step>, AllocError> {
    let Some(inc) = words.medium() else {
        return Ok(None);
    };
    match pairs_of(alloc, words)? {
        Some(pairs) => Ok(Some(Step::Enter { at, inc, pairs })),
        None => Ok(None),
    }
}

fn change(alloc: Global, at: Moment, verb: &str, text: &str) -> Result<Option<Step>, AllocError>
    ensures { IfOk result (λ step. IfSome step IsValid) }
{
    if at.0 > LAST_MOMENT {
        return Ok(None);
    }
    match write_of(alloc, verb, text)? {
        Some(write) => Ok(Some(Step::Change { at, write })),
        None => Ok(None),
    }
}

/// The step, where it is valid.
pub(crate) fn checked(step: Option<Step>) -> Option<Step>
    ensures { IfSome result IsValid }
{
    match step {
        Some(step) => if is_valid(&step) { Some(step) } else { None },
        None => None,
    }
}

/// The step that words say. None where they say none, or one that is not valid.
pub fn step_of(alloc: Global, text: &str) -> Result<Option<Step>, AllocError>
    ensures { IfOk result (λ step. IfSome step IsValid) }
{
    let mut words = Words::new(text);
    let Some(at) = words.number() else {
        return Ok(None);
    };
    let at = Moment(at);
    let verb = words.next();
    match verb {
        "zone" => Ok(checked(zone(alloc, at, &mut words)?)),
        "enter" => Ok(checked(enter(alloc, at, &mut words)?)),
        "create" | "update" | "delete" | "group" | "ungroup" => {
            change(alloc, at, verb, words.rest())
        }
        _ => Ok(checked(plain_step(at, verb, &mut words))),
    }
}
