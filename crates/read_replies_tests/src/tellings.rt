//! Answers in plain words.
use book_parts::Parts;
use read_replies::reply;
use sched_calls::{Read, Refusal, Reply};
use std::alloc::Global;
use std::process::Abort;

/// A refusal: its status, its rule and its subject.
fn refused(rt: &impl Abort, alloc: Global, refusal: &Refusal) -> String {
    let subject = refusal.subject.as_str();
    let status = refusal.status;
    let rule = refusal.rule;
    format!(in alloc; "{status} rule {rule}: {subject}").expect(rt, "memory")
}

/// A reply: its body.
fn shown(rt: &impl Abort, alloc: Global, reply: &Reply) -> String {
    let body = reply_bodies::encode(alloc, reply).expect(rt, "memory");
    String::from_utf8_lossy(alloc, body.as_slice()).expect(rt, "memory")
}

/// What a read is answered over a book of no steps.
pub fn told(rt: &impl Abort, alloc: Global, read: &Read) -> String {
    let parts = Parts::new(alloc).expect(rt, "memory");
    match reply(&parts, alloc, read).expect(rt, "memory") {
        Ok(reply) => shown(rt, alloc, &reply),
        Err(refusal) => refused(rt, alloc, &refusal),
    }
}
