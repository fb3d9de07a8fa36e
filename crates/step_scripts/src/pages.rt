//! Pages, line by line.

use crate::offers::offered;
use crate::questions::answer_to;
use crate::steps::step_of;
use crate::sweeps::{Replies, sweep};
use crate::words::{Words, cut};
use plain_words::Moment;
use std::alloc::{AllocError, Global};
use step_machine::{LegalFault, Machine};

/// What stands in a line between what is told and what was answered.
const ARROW: &str = " -> ";

/// The sweep that words tell: `MOMENT sweep WORD STATUS`, where the word that chooses moments is 0, and the status of all
/// replies 200, unless they are given.
fn sweep_of(text: &str) -> Option<(Moment, Replies)> {
    let mut words = Words::new(text);
    let at = words.number()?;
    if words.next() != "sweep" {
        return None;
    }
    let word = words.number().unwrap_or(0);
    let status = words.short().unwrap_or(200);
    Some((Moment(at), Replies { word, status }))
}

/// The answer to a step or a sweep that was refused.
fn refusal(alloc: Global, fault: LegalFault) -> Result<Option<String>, AllocError> {
    match fault {
        LegalFault::Why(why) => Ok(Some(format!(in alloc; "{why:?}")?)),
        LegalFault::OutOfMemory => Err(AllocError),
    }
}

fn play_sweep<M: Machine>(
    machine: &mut M,
    alloc: Global,
    at: Moment,
    replies: Replies,
) -> Result<Option<String>, AllocError> {
    match sweep(machine, alloc, at, replies) {
        Ok(swept) => Ok(Some(format!(in alloc; "{swept:?}")?)),
        Err(fault) => refusal(alloc, fault),
    }
}

fn play_step<M: Machine>(
    machine: &mut M,
    alloc: Global,
    text: &str,
) -> Result<Option<String>, AllocError> {
    let Some(step) = step_of(alloc, text)? else {
        return unreadable(alloc);
    };
    match offered(machine, step) {
        Ok(()) => Ok(None),
        Err(fault) => refusal(alloc, fault),
    }
}

fn play_question<M: Machine>(
    machine: &M,
    alloc: Global,
    question: &str,
) -> Result<Option<String>, AllocError> {
    match answer_to(machine, alloc, question)? {
        Some(answer) => Ok(Some(answer)),
        None => unreadable(alloc),
    }
}

fn unreadable(alloc: Global) -> Result<Option<String>, AllocError> {
    Ok(Some(String::from_str(alloc, "unreadable")?))
}

/// Does what a line tells. None where nothing is to be answered.
fn played<M: Machine>(
    machine: &mut M,
    alloc: Global,
    told: &str,
) -> Result<Option<String>, AllocError> {
    if told.is_empty() || told.starts_with("#") {
        return Ok(None);
    }
    if let Some(question) = told.strip_prefix("? ") {
        return play_question(machine, alloc, question);
    }
    match sweep_of(told) {
        Some((at, replies)) => play_sweep(machine, alloc, at, replies),
        None => play_step(machine, alloc, told),
    }
}

/// Does what a line tells, and writes it with its answer.
fn play_line<M: Machine>(
    machine: &mut M,
    alloc: Global,
    line: &str,
    page: &mut String,
) -> Result<(), AllocError> {
    let (told, _) = cut(line, ARROW);
    page.push_str(told)?;
    if let Some(answer) = played(machine, alloc, told)? {
        page.push_str(ARROW)?;
        page.push_str(answer.as_str())?;
    }
    page.push_str("\n")
}

/// Does what a page tells, line by line, and writes the page with what was answered. Each line ends with a line break. It fails
/// only for want of memory.
pub fn play<M: Machine>(machine: &mut M, alloc: Global, page: &str) -> Result<String, AllocError> {
    let mut played = String::new(alloc);
    let mut rest = page;
    for _ in 0..u64::MAX {
        if rest.is_empty() {
            break;
        }
        let (line, others) = cut(rest, "\n");
        play_line(machine, alloc, line, &mut played)?;
        rest = others;
    }
    Ok(played)
}
