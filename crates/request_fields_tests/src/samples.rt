//! Bodies, and what is answered to them. Where memory is wanted the test ends, so that each function has one exit.
use request_fields::{DecodeFault, read_content, read_object, refuse_unknown_in_schedule};
use sched_calls::Refusal;
use sched_plain::Schedule;
use std::alloc::{AllocError, Global};
use std::process::Abort;

/// The object to which the lines of a table add: what stands before them, and behind them.
pub struct Place {
    pub front: &'static str,
    pub back: &'static str,
}

/// The body.
pub const BODY: Place = Place {
    front: r#"{"FlexibleTimeWindow":{"Mode":"OFF"},"ScheduleExpression":"rate(1 hour)","Target":{"Arn":"http://127.0.0.1:9000/hook","RoleArn":"r"},"#,
    back: "}",
};

/// Its target.
pub const TARGET: Place = Place {
    front: r#"{"FlexibleTimeWindow":{"Mode":"OFF"},"ScheduleExpression":"rate(1 hour)","Target":{"Arn":"http://127.0.0.1:9000/hook","RoleArn":"r","#,
    back: "}}",
};

/// The content that a body says, or the first rule that it breaks.
fn content_of(alloc: Global, body: &[u8]) -> Result<Schedule, DecodeFault> {
    let object = read_object(alloc, body)?;
    refuse_unknown_in_schedule(alloc, &object)?;
    read_content(alloc, &object)
}

/// A refusal as text: its status, its rule, and in quotes what it names.
fn refusal_text(alloc: Global, refusal: &Refusal) -> Result<String, AllocError> {
    let subject = refusal.subject.as_str();
    format!(in alloc; "{} rule {}: {subject:?}", refusal.status, refusal.rule)
}

fn fault_text(alloc: Global, fault: &DecodeFault) -> Result<String, AllocError> {
    match fault {
        DecodeFault::Refused(refusal) => refusal_text(alloc, refusal),
        DecodeFault::OutOfMemory => Err(AllocError),
    }
}

/// What is answered to a body, as text: the content, or the refusal.
pub fn told(rt: &impl Abort, alloc: Global, body: &[u8]) -> String {
    let told = match content_of(alloc, body) {
        Ok(content) => format!(in alloc; "{content:?}"),
        Err(fault) => fault_text(alloc, &fault),
    };
    told.expect(rt, "memory for what is told")
}

fn joined(rt: &impl Abort, alloc: Global, place: &Place, added: &str) -> String {
    format!(in alloc; "{}{added}{}", place.front, place.back).expect(rt, "memory for a body")
}

/// What is answered to a body with this in it has this piece.
fn check_added(rt: &impl Abort, alloc: Global, place: &Place, added: &str, wanted: &str) {
    let body = joined(rt, alloc, place, added);
    let told = told(rt, alloc, body.as_bytes());
    assert!(rt; told.contains(wanted), "{told} for {added}");
}

fn check_line(rt: &impl Abort, alloc: Global, place: &Place, line: &str) {
    let (added, wanted) = line.split_once(" | ").expect(rt, "a line has two columns");
    check_added(rt, alloc, place, added, wanted);
}

/// Each line of a table holds: what is added, and a piece of what is answered.
pub fn check_table(rt: &impl Abort, alloc: Global, place: &Place, table: &str) {
    for line in table.lines() {
        check_line(rt, alloc, place, line);
    }
}

/// A piece so many times.
pub fn repeated(rt: &impl Abort, alloc: Global, piece: &str, times: usize) -> String {
    let mut all = String::new(alloc);
    for _ in 0..times {
        all.push_str(piece).expect(rt, "memory for a long text");
    }
    all
}

/// The same where the middle of what is added is a piece so many times.
pub fn check_long(
    rt: &impl Abort,
    alloc: Global,
    place: &Place,
    ends: (&str, &str),
    piece: &str,
    times: usize,
    wanted: &str,
) {
    let (front, back) = ends;
    let middle = repeated(rt, alloc, piece, times);
    let added = format!(in alloc; "{front}{middle}{back}").expect(rt, "memory for a long value");
    check_added(rt, alloc, place, added.as_str(), wanted);
}
