//! The body of an occurrence with its attempts.
use crate::samples::{name_of, read_body};
use sched_calls::ReadReply;
use sched_plain::{Attempt, Attempts, Entry, Fate, Last, Moment, Outcome, Verdict};
use std::alloc::Global;
use std::process::Abort;

const NONE_YET: &str =
    "{\"Attempts\":[],\"Chosen\":960,\"ExecutionId\":\"0000000100000000000003c0\",\"Instant\":960,\"Outcome\":\"Undecided\",\"ScheduleArn\":\"arn:aws:scheduler:local:000000000000:schedule/default/a\"}";

const ALL_FATES: &str =
    "{\"Attempts\":[{\"Begun\":1000,\"Number\":1,\"Verdict\":\"Lost\"},{\"Begun\":1001,\"Number\":2,\"Verdict\":\"Retry\"},{\"Begun\":1002,\"Number\":3,\"Verdict\":\"Done\"},{\"Begun\":1003,\"Number\":4,\"Verdict\":\"Final\"},{\"Begun\":1004,\"Number\":65535,\"Verdict\":\"Live\"}],\"Chosen\":7258204798,\"ExecutionId\":\"ffffffffffffffffffffffff\",\"Instant\":18446744073709551615,\"Outcome\":\"Cancelled\",\"ScheduleArn\":\"arn:aws:scheduler:local:000000000000:schedule/default/a\"}";

fn attempt_of(number: u16, begun: u64, fate: Fate) -> Attempt {
    Attempt {
        number,
        begun: Moment(begun),
        epoch: 1,
        fate,
    }
}

fn ended(verdict: Verdict) -> Fate {
    Fate::Ended {
        verdict,
        status: 200,
    }
}

fn all_fates(rt: &impl Abort, alloc: Global) -> Attempts {
    let mut attempts = Attempts::new(alloc);
    attempts
        .push(attempt_of(1, 1000, Fate::Lost))
        .expect(rt, "memory");
    attempts
        .push(attempt_of(2, 1001, ended(Verdict::Retry)))
        .expect(rt, "memory");
    attempts
        .push(attempt_of(3, 1002, ended(Verdict::Done)))
        .expect(rt, "memory");
    attempts
        .push(attempt_of(4, 1003, ended(Verdict::Final)))
        .expect(rt, "memory");
    attempts
        .push(attempt_of(65_535, 1004, Fate::Live))
        .expect(rt, "memory");
    attempts
}

fn none_yet(rt: &impl Abort, alloc: Global) -> ReadReply {
    ReadReply::Execution {
        group: name_of(rt, alloc, "default"),
        name: name_of(rt, alloc, "a"),
        inc: 1,
        instant: 960,
        entry: Entry {
            chosen: 960,
            used: 0,
            last: Last::NoAttempt,
            outcome: None,
        },
        attempts: Attempts::new(alloc),
    }
}

fn many(rt: &impl Abort, alloc: Global) -> ReadReply {
    ReadReply::Execution {
        group: name_of(rt, alloc, "default"),
        name: name_of(rt, alloc, "a"),
        inc: u32::MAX,
        instant: u64::MAX,
        entry: Entry {
            chosen: 7_258_204_798,
            used: 5,
            last: Last::Live { at: 1004 },
            outcome: Some(Outcome::Cancelled),
        },
        attempts: all_fates(rt, alloc),
    }
}

#[test]
fn an_occurrence_without_an_attempt_is_undecided(rt: HostRuntime) {
    let body = read_body(&rt, rt.alloc(), none_yet(&rt, rt.alloc()));
    assert_eq!(rt; body.as_slice(), NONE_YET.as_bytes());
}

#[test]
fn each_attempt_shows_its_verdict(rt: HostRuntime) {
    let body = read_body(&rt, rt.alloc(), many(&rt, rt.alloc()));
    assert_eq!(rt; body.as_slice(), ALL_FATES.as_bytes());
}
