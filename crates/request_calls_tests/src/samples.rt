//! Requests, and what is answered to them. Where memory is wanted the test ends, so that each function has one exit.
use http_wire::HttpRequest;
use request_calls::{DecodeFault, decode};
use sched_calls::Refusal;
use sched_plain::{Blob, Items};
use std::alloc::{AllocError, Global};
use std::process::Abort;

fn blob(rt: &impl Abort, alloc: Global, bytes: &[u8]) -> Blob {
    Blob::from_vec(bytes.to_vec(alloc).expect(rt, "memory for bytes"))
}

/// A request without an X-Moment header.
pub fn request_of(
    rt: &impl Abort,
    alloc: Global,
    method: &str,
    target: &str,
    body: &[u8],
) -> HttpRequest {
    HttpRequest {
        method: blob(rt, alloc, method.as_bytes()),
        target: blob(rt, alloc, target.as_bytes()),
        moments: Items::new(alloc),
        body: blob(rt, alloc, body),
    }
}

/// A refusal as text: its status, its rule, and in quotes what it names.
fn refusal_text(alloc: Global, refusal: &Refusal) -> Result<String, AllocError> {
    let subject = refusal.subject.as_str();
    format!(in alloc; "{} rule {}: {subject:?}", refusal.status, refusal.rule)
}

/// Why a request is refused, as text.
pub fn fault_text(alloc: Global, fault: &DecodeFault) -> Result<String, AllocError> {
    match fault {
        DecodeFault::Refused(refusal) => refusal_text(alloc, refusal),
        DecodeFault::OutOfMemory => Err(AllocError),
    }
}

/// What is answered to a request, as text: the call, or the refusal.
pub fn told(rt: &impl Abort, alloc: Global, request: &HttpRequest, sweeps: bool) -> String {
    let told = match decode(alloc, request, sweeps) {
        Ok(call) => format!(in alloc; "{call:?}"),
        Err(fault) => fault_text(alloc, &fault),
    };
    told.expect(rt, "memory for what is told")
}

/// What is answered to `METHOD TARGET` with this body, where sweeps are served, has this piece.
pub fn check_request(rt: &impl Abort, alloc: Global, line: &str, body: &[u8], wanted: &str) {
    let (method, target) = line.split_once(" ").expect(rt, "a method and a target");
    let request = request_of(rt, alloc, method, target, body);
    let told = told(rt, alloc, &request, true);
    assert!(rt; told.contains(wanted), "{told} for {line}");
}

fn check_line(rt: &impl Abort, alloc: Global, line: &str, body: &[u8]) {
    let (request, wanted) = line.split_once(" | ").expect(rt, "a line has two columns");
    check_request(rt, alloc, request, body, wanted);
}

/// Each line of a table holds: a method and a target, and a piece of what is answered.
pub fn check_table(rt: &impl Abort, alloc: Global, table: &str) {
    check_table_with(rt, alloc, table, b"");
}

/// The same where each request has this body.
pub fn check_table_with(rt: &impl Abort, alloc: Global, table: &str, body: &[u8]) {
    for line in table.lines() {
        check_line(rt, alloc, line, body);
    }
}

/// A piece so many times.
pub fn repeated(rt: &impl Abort, alloc: Global, piece: &str, times: usize) -> String {
    let mut all = String::new(alloc);
    for _ in 0..times {
        all.push_str(piece).expect(rt, "memory for a long text");
    }
    all
}

/// The same of one request whose target ends with a piece so many times.
pub fn check_long(
    rt: &impl Abort,
    alloc: Global,
    front: &str,
    piece: &str,
    times: usize,
    wanted: &str,
) {
    let end = repeated(rt, alloc, piece, times);
    let line = format!(in alloc; "{front}{end}").expect(rt, "memory for a long target");
    check_request(rt, alloc, line.as_str(), b"", wanted);
}
