//! What a write would come to, and what is read: requests in words, and what is answered.

use crate::words::Words;
use crate::writes::{request_of, write_of};
use http_wire::HttpRequest;
use plain_words::{Moment, ZoneName};
use reply_bodies::encode;
use request_calls::{DecodeFault, decode};
use sched_calls::{Call, Read, Refusal, Reply};
use sched_plain::{Step, Write};
use std::alloc::{AllocError, Global};
use step_machine::Machine;
use write_plans::Plan;

/// `STATUS rule NUMBER: SUBJECT`
fn refusal_text(alloc: Global, refusal: &Refusal) -> Result<String, AllocError> {
    let status = refusal.status;
    let rule = refusal.rule;
    let subject = refusal.subject.as_str();
    format!(in alloc; "{status} rule {rule}: {subject}")
}

/// The text of a body; `{}` where it is empty.
fn shown(body: &[u8]) -> &str {
    match str::from_utf8(body) {
        Ok(text) => if text.is_empty() { "{}" } else { text },
        Err(_) => "no text",
    }
}

fn reply_text(alloc: Global, reply: &Reply) -> Result<String, AllocError> {
    let body = encode(alloc, reply)?;
    String::from_str(alloc, shown(body.as_slice()))
}

fn zone_text(alloc: Global, zone: &ZoneName) -> Result<String, AllocError> {
    let zone = zone.as_str();
    format!(in alloc; "needs {zone}")
}

fn behind_text(alloc: Global, inc: u32) -> Result<String, AllocError> {
    format!(in alloc; "catch up {inc}")
}

fn ready_text(alloc: Global, step: &Step) -> Result<String, AllocError> {
    let at = step_rules::at_of(step).0;
    format!(in alloc; "ready at {at}")
}

fn plan_text(alloc: Global, plan: &Plan) -> Result<String, AllocError> {
    match plan {
        Plan::Refused(refusal) => refusal_text(alloc, refusal),
        Plan::Known(reply) => reply_text(alloc, reply),
        Plan::NeedsZone(zone) => zone_text(alloc, zone),
        Plan::CatchUp { inc } => behind_text(alloc, *inc),
        Plan::Ready(step) => ready_text(alloc, step),
    }
}

fn planned<M: Machine>(
    machine: &M,
    alloc: Global,
    write: &Write,
    at: Moment,
) -> Result<String, AllocError> {
    let plan = machine.plan_write(write, at)?;
    plan_text(alloc, &plan)
}

fn plan_at<M: Machine>(
    machine: &M,
    alloc: Global,
    at: Moment,
    words: &mut Words,
) -> Result<Option<String>, AllocError> {
    let verb = words.next();
    match write_of(alloc, verb, words.rest())? {
        Some(write) => Ok(Some(planned(machine, alloc, &write, at)?)),
        None => Ok(None),
    }
}

/// `plan MOMENT WRITE`: what is to be done with a write.
pub(crate) fn plan<M: Machine>(
    machine: &M,
    alloc: Global,
    words: &mut Words,
) -> Result<Option<String>, AllocError> {
    match words.number() {
        Some(at) => plan_at(machine, alloc, Moment(at), words),
        None => Ok(None),
    }
}

/// The read that a request asks for. None where it asks for none.
fn read_of(alloc: Global, request: &HttpRequest) -> Result<Option<Read>, AllocError> {
    match decode(alloc, request, false) {
        Ok(Call::Read(read)) => Ok(Some(read)),
        Err(DecodeFault::OutOfMemory) => Err(AllocError),
        _ => Ok(None),
    }
}

fn answered<M: Machine>(machine: &M, alloc: Global, read: &Read) -> Result<String, AllocError> {
    match machine.reply(read)? {
        Ok(reply) => reply_text(alloc, &reply),
        Err(refusal) => refusal_text(alloc, &refusal),
    }
}

/// `GET TARGET`: what is read.
pub(crate) fn get<M: Machine>(
    machine: &M,
    alloc: Global,
    words: &mut Words,
) -> Result<Option<String>, AllocError> {
    let request = request_of(alloc, "GET", words.next(), "")?;
    match read_of(alloc, &request)? {
        Some(read) => Ok(Some(answered(machine, alloc, &read)?)),
        None => Ok(None),
    }
}
