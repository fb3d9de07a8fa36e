//! The responses that tell how a call ended.
ghost use Rattle.std.specs.Prelude.{Ok as Good, Err as Bad};
ghost use Rattle.sched_top.specs.Serving.{Served, JournalFull, DiskFailed, ZonesFailed, answer_text, full_text, disk_text, zones_text};
ghost use Rattle.sched_top.specs.Asking.{IsTold, TellsUnread, TellsWrite, TellsStop};

use crate::service::response::Response;
use crate::service::texts::{text_of_answer, text_of_failure, text_of_full};
use durable_book::GrowFault;
use durable_writes::WriteFault;
use request_calls::DecodeFault;
use sched_calls::{Refusal, Reply};
use std::alloc::Global;

/// The response that gives an answer, over a history with so many steps.
pub fn answered(alloc: Global, answer: &Result<Reply, Refusal>, steps: u64) -> Response
    ensures { IsTold Served (answer_text answer.now steps) result }
{
    match text_of_answer(alloc, answer, steps) {
        Ok(text) => Response::Served(text),
        Err(_) => Response::ShortOfMemory,
    }
}

/// The response where a step has no room.
fn full(alloc: Global, end: u64, need: u64, steps: u64) -> Response
    ensures { IsTold JournalFull (full_text end need steps) result }
{
    match text_of_full(alloc, end, need, steps) {
        Ok(text) => Response::JournalFull(text),
        Err(_) => Response::ShortOfMemory,
    }
}

/// The response where a call of the disk failed.
pub fn disk_failed(alloc: Global) -> Response
    ensures { IsTold DiskFailed disk_text result }
{
    match text_of_failure(alloc, "disk") {
        Ok(text) => Response::DiskFailed(text),
        Err(_) => Response::ShortOfMemory,
    }
}

/// The response where a zone could not be read.
fn zones_failed(alloc: Global) -> Response
    ensures { IsTold ZonesFailed zones_text result }
{
    match text_of_failure(alloc, "zones") {
        Ok(text) => Response::ZonesFailed(text),
        Err(_) => Response::ShortOfMemory,
    }
}

/// The response to a request that has no call.
pub fn unread(alloc: Global, fault: DecodeFault, steps: u64) -> Response
    ensures { TellsUnread fault steps result }
{
    match fault {
        DecodeFault::Refused(refusal) => answered(alloc, &Err(refusal), steps),
        DecodeFault::OutOfMemory => Response::ShortOfMemory,
    }
}

/// The response to a write that was not accepted.
fn unwritten(alloc: Global, fault: WriteFault, steps: u64) -> Response
    ensures { TellsWrite (Bad fault) steps result }
{
    match fault {
        WriteFault::Refused(refusal) => answered(alloc, &Err(refusal), steps),
        WriteFault::Full { end, need } => full(alloc, end, need, steps),
        WriteFault::DiskFault => disk_failed(alloc),
        WriteFault::ZoneFailed => zones_failed(alloc),
        WriteFault::OutOfMemory => Response::ShortOfMemory,
    }
}

/// The response to a write, by how it ended.
pub fn written(alloc: Global, done: Result<Reply, WriteFault>, steps: u64) -> Response
    ensures { TellsWrite done steps result }
{
    match done {
        Ok(reply) => answered(alloc, &Ok(reply), steps),
        Err(fault) => unwritten(alloc, fault, steps),
    }
}

/// The response to a sweep that was cut.
pub fn stopped(alloc: Global, fault: GrowFault, steps: u64) -> Response
    ensures { TellsStop fault steps result }
{
    match fault {
        GrowFault::Full { end, need } => full(alloc, end, need, steps),
        GrowFault::DiskFault => disk_failed(alloc),
        GrowFault::OutOfMemory => Response::ShortOfMemory,
    }
}
