//! Questions to a machine, in words, and its answers.
ghost use Rattle.std.specs.Prelude.{◌<◌, IfSome};
ghost use Rattle.plain_words.specs.declared.limits.TheConstants.{SHARDS};

use crate::asking::{get, plan};
use crate::words::Words;
use plain_words::{Moment, SHARDS, Text};
use sched_calls::{LetterRow, Read, ReadReply, Reply};
use std::alloc::{AllocError, Global};
use step_machine::Machine;

/// The most letters that are shown.
const MOST_LETTERS: u8 = 100;

/// The shard that a word names.
fn shard_in(words: &mut Words) -> Option<u8>
    ensures { IfSome result (λ shard. shard < SHARDS) }
{
    match words.small() {
        Some(shard) => if shard < SHARDS { Some(shard) } else { None },
        None => None,
    }
}

/// `work SHARD MOMENT`
fn work<M: Machine>(
    machine: &M,
    alloc: Global,
    words: &mut Words,
) -> Result<Option<String>, AllocError> {
    match (shard_in(words), words.number()) {
        (Some(shard), Some(at)) => {
            let work = machine.next_work(shard, Moment(at));
            Ok(Some(format!(in alloc; "{work:?}")?))
        }
        _ => Ok(None),
    }
}

/// `holder SHARD`
fn holder<M: Machine>(
    machine: &M,
    alloc: Global,
    words: &mut Words,
) -> Result<Option<String>, AllocError> {
    match shard_in(words) {
        Some(shard) => {
            let holder = machine.holder(shard);
            Ok(Some(format!(in alloc; "{holder:?}")?))
        }
        None => Ok(None),
    }
}

/// `swept SHARD`
fn swept<M: Machine>(
    machine: &M,
    alloc: Global,
    words: &mut Words,
) -> Result<Option<String>, AllocError> {
    match shard_in(words) {
        Some(shard) => {
            let swept = machine.last_swept(shard);
            Ok(Some(format!(in alloc; "{swept:?}")?))
        }
        None => Ok(None),
    }
}

/// `entry INC INSTANT`
fn entry<M: Machine>(
    machine: &M,
    alloc: Global,
    words: &mut Words,
) -> Result<Option<String>, AllocError> {
    match (words.medium(), words.number()) {
        (Some(inc), Some(instant)) => {
            let entry = machine.entry(inc, instant);
            Ok(Some(format!(in alloc; "{entry:?}")?))
        }
        _ => Ok(None),
    }
}

/// `content INC INSTANT`: its expression as it was written.
fn content<M: Machine>(
    machine: &M,
    alloc: Global,
    words: &mut Words,
) -> Result<Option<String>, AllocError> {
    match (words.medium(), words.number()) {
        (Some(inc), Some(instant)) => match machine.content(inc, instant) {
            Some(content) => Ok(Some(String::from_str(alloc, content.text.as_str())?)),
            None => Ok(Some(String::from_str(alloc, "None")?)),
        },
        _ => Ok(None),
    }
}

/// `named INC`
fn named<M: Machine>(
    machine: &M,
    alloc: Global,
    words: &mut Words,
) -> Result<Option<String>, AllocError> {
    let Some(inc) = words.medium() else {
        return Ok(None);
    };
    match machine.named(inc) {
        Some((group, name)) => {
            let group = group.as_str();
            let name = name.as_str();
            Ok(Some(format!(in alloc; "{group} {name}")?))
        }
        None => Ok(Some(String::from_str(alloc, "None")?)),
    }
}

/// `wanted INC MOMENT`
fn wanted<M: Machine>(
    machine: &M,
    alloc: Global,
    words: &mut Words,
) -> Result<Option<String>, AllocError> {
    match (words.medium(), words.number()) {
        (Some(inc), Some(at)) => {
            let wanted = machine.wanted(inc, Moment(at))?;
            let instants = wanted.as_slice();
            Ok(Some(format!(in alloc; "{instants:?}")?))
        }
        _ => Ok(None),
    }
}

/// `live` or `live SHARD`
fn live<M: Machine>(
    machine: &M,
    alloc: Global,
    words: &mut Words,
) -> Result<Option<String>, AllocError> {
    let live = machine.live(words.small());
    Ok(Some(format!(in alloc; "{live}")?))
}

fn length<M: Machine>(machine: &M, alloc: Global) -> Result<Option<String>, AllocError> {
    let length = machine.length();
    Ok(Some(format!(in alloc; "{length}")?))
}

fn moment<M: Machine>(machine: &M, alloc: Global) -> Result<Option<String>, AllocError> {
    let moment = machine.moment().0;
    Ok(Some(format!(in alloc; "{moment}")?))
}

/// `counts MOMENT`
fn counts<M: Machine>(
    machine: &M,
    alloc: Global,
    words: &mut Words,
) -> Result<Option<String>, AllocError> {
    match words.number() {
        Some(at) => {
            let counts = machine.counts(Moment(at));
            Ok(Some(format!(in alloc; "{counts:?}")?))
        }
        None => Ok(None),
    }
}

/// The letters, one behind the other: number, incarnation, instant and reason of each.
fn written(alloc: Global, rows: &[LetterRow]) -> Result<Option<String>, AllocError> {
    let mut text = String::from_str(alloc, "letters")?;
    for row in rows {
        let number = row.number;
        let inc = row.inc;
        let instant = row.instant;
        let reason = row.reason;
        let letter = format!(in alloc; " [{number} {inc} {instant} {reason:?}]")?;
        text.push_str(letter.as_str())?;
    }
    Ok(Some(text))
}

/// `letters QUEUE`
fn letters<M: Machine>(
    machine: &M,
    alloc: Global,
    words: &mut Words,
) -> Result<Option<String>, AllocError> {
    let read = Read::Letters {
        queue: Text::from_string(String::from_str(alloc, words.next())?),
        after: 0,
        max: MOST_LETTERS,
    };
    match machine.reply(&read)? {
        Ok(Reply::Read(ReadReply::Letters(rows))) => written(alloc, rows.as_slice()),
        _ => Ok(None),
    }
}

/// What a machine answers to a question. None where the words ask none.
pub(crate) fn answer_to<M: Machine>(
    machine: &M,
    alloc: Global,
    question: &str,
) -> Result<Option<String>, AllocError> {
    let mut words = Words::new(question);
    match words.next() {
        "work" => work(machine, alloc, &mut words),
        "holder" => holder(machine, alloc, &mut words),
        "swept" => swept(machine, alloc, &mut words),
        "entry" => entry(machine, alloc, &mut words),
        "content" => content(machine, alloc, &mut words),
        "named" => named(machine, alloc, &mut words),
        "wanted" => wanted(machine, alloc, &mut words),
        "live" => live(machine, alloc, &mut words),
        "length" => length(machine, alloc),
        "moment" => moment(machine, alloc),
        "counts" => counts(machine, alloc, &mut words),
        "letters" => letters(machine, alloc, &mut words),
        "plan" => plan(machine, alloc, &mut words),
        "GET" => get(machine, alloc, &mut words),
        _ => Ok(None),
    }
}
