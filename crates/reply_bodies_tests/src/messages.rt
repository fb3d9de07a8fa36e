//! The bodies of errors.
use crate::samples::text_of;
use reply_bodies::{encode_message, encode_refusal};
use sched_calls::Refusal;
use std::alloc::Global;
use std::process::Abort;

/// The body of a refusal by this rule, for what this subject names.
fn refused(rt: &impl Abort, alloc: Global, rule: u8, subject: &str) -> Vec<u8> {
    let refusal = Refusal {
        rule,
        status: 400,
        subject: text_of(rt, alloc, subject),
    };
    encode_refusal(alloc, &refusal).expect(rt, "memory for a body")
}

#[test]
fn a_message_stands_as_it_is(rt: HostRuntime) {
    let body = encode_message(rt.alloc(), "zones").expect(&rt, "memory for a body");
    assert_eq!(rt; body.as_slice(), b"{\"Message\":\"zones\"}".as_slice());
}

#[test]
fn quotes_and_line_breaks_are_escaped(rt: HostRuntime) {
    let body = encode_message(rt.alloc(), "a\"b\nc\\").expect(&rt, "memory for a body");
    assert_eq!(rt;
        body.as_slice(),
        b"{\"Message\":\"a\\\"b\\nc\\\\\"}".as_slice()
    );
}

#[test]
fn a_refusal_names_its_rule_and_its_subject(rt: HostRuntime) {
    let body = refused(&rt, rt.alloc(), 10, "default/once");
    assert_eq!(rt;
        body.as_slice(),
        b"{\"Message\":\"rule 10: default/once\"}".as_slice()
    );
}

#[test]
fn a_subject_from_a_stranger_is_escaped(rt: HostRuntime) {
    let body = refused(&rt, rt.alloc(), 3, "/x\"}\r\n\u{fffd}");
    assert_eq!(rt;
        body.as_slice(),
        "{\"Message\":\"rule 3: /x\\\"}\\r\\n\u{fffd}\"}".as_bytes()
    );
}
