//! The bodies of writes and sweeps.
use crate::samples::{body_of, text_of};
use sched_calls::Reply;
use sched_plain::Moment;
use std::alloc::Global;
use std::process::Abort;

/// The body that shows an arn.
fn created(rt: &impl Abort, alloc: Global, arn: &str) -> Vec<u8> {
    let reply = Reply::Created {
        arn: text_of(rt, alloc, arn),
    };
    body_of(rt, alloc, &reply)
}

#[test]
fn a_schedule_shows_its_arn(rt: HostRuntime) {
    let body = created(
        &rt,
        rt.alloc(),
        "arn:aws:scheduler:local:000000000000:schedule/default/a",
    );
    assert_eq!(rt;
        body.as_slice(),
        b"{\"ScheduleArn\":\"arn:aws:scheduler:local:000000000000:schedule/default/a\"}".as_slice()
    );
}

#[test]
fn a_group_shows_its_arn(rt: HostRuntime) {
    let body = created(
        &rt,
        rt.alloc(),
        "arn:aws:scheduler:local:000000000000:schedule-group/team",
    );
    assert_eq!(rt;
        body.as_slice(),
        b"{\"ScheduleGroupArn\":\"arn:aws:scheduler:local:000000000000:schedule-group/team\"}".as_slice()
    );
}

#[test]
fn a_deletion_shows_nothing(rt: HostRuntime) {
    let body = body_of(&rt, rt.alloc(), &Reply::Empty);
    assert_eq!(rt; body.as_slice(), b"".as_slice());
}

#[test]
fn a_sweep_shows_its_moment(rt: HostRuntime) {
    let reply = Reply::Settled {
        at: Moment(7_258_118_399),
    };
    let body = body_of(&rt, rt.alloc(), &reply);
    assert_eq!(rt; body.as_slice(), b"{\"Moment\":7258118399}".as_slice());
}
