//! The body of one schedule.
use crate::samples::{name_of, read_body, text_of, zone_of};
use sched_calls::ReadReply;
use sched_plain::{Civil, Expr, Moment, Policy, Schedule, Unit};
use std::alloc::Global;
use std::process::Abort;

/// What has a short escape, what has a long one, and what stands for itself: a slash, the byte 127, two bytes, four bytes.
const DESCRIPTION: &str =
    "a \"b\" \\ \u{0}\u{1}\u{8}\t\n\u{b}\u{c}\r\u{1f} / \u{7f} \u{e9} \u{1f600}";

const WHOLE: &str =
    "{\"ActionAfterCompletion\":\"DELETE\",\"Arn\":\"arn:aws:scheduler:local:000000000000:schedule/team/night.job-1_a\",\"CreationDate\":60,\"Description\":\"a \\\"b\\\" \\\\ \\u0000\\u0001\\b\\t\\n\\u000b\\f\\r\\u001f / \u{7f} \u{e9} \u{1f600}\",\"EndDate\":7258118399,\"FlexibleTimeWindow\":{\"MaximumWindowInMinutes\":1440,\"Mode\":\"FLEXIBLE\"},\"GroupName\":\"team\",\"LastModificationDate\":120,\"Name\":\"night.job-1_a\",\"ScheduleExpression\":\"rate(1  hours)\",\"ScheduleExpressionTimezone\":\"Europe/Berlin\",\"StartDate\":0,\"State\":\"DISABLED\",\"Target\":{\"Arn\":\"http://127.0.0.1:9000/hook?a=1\",\"DeadLetterConfig\":{\"Arn\":\"arn:aws:sqs:local:000000000000:dead\"},\"Input\":\"{\\\"k\\\":\\\"\\\\n\\\"}\",\"RetryPolicy\":{\"MaximumEventAgeInSeconds\":60,\"MaximumRetryAttempts\":0},\"RoleArn\":\"r\"}}";

const PLAIN: &str =
    "{\"ActionAfterCompletion\":\"NONE\",\"Arn\":\"arn:aws:scheduler:local:000000000000:schedule/default/a\",\"CreationDate\":0,\"FlexibleTimeWindow\":{\"Mode\":\"OFF\"},\"GroupName\":\"default\",\"LastModificationDate\":0,\"Name\":\"a\",\"ScheduleExpression\":\"at(1970-01-01T00:16:40)\",\"ScheduleExpressionTimezone\":\"UTC\",\"State\":\"ENABLED\",\"Target\":{\"Arn\":\"http://localhost/\",\"RetryPolicy\":{\"MaximumEventAgeInSeconds\":86400,\"MaximumRetryAttempts\":185},\"RoleArn\":\"r\"}}";

/// A content with all that can be left out.
fn whole_content(rt: &impl Abort, alloc: Global) -> Schedule {
    Schedule {
        description: text_of(rt, alloc, DESCRIPTION),
        text: text_of(rt, alloc, "rate(1  hours)"),
        expr: Expr::Rate {
            count: 1,
            unit: Unit::Hour,
        },
        zone: zone_of(rt, alloc, "Europe/Berlin"),
        start: Some(0),
        finish: Some(7_258_118_399),
        enabled: false,
        delete_after: true,
        window: 1440,
        policy: Policy {
            retries: 0,
            age: 60,
        },
        target: text_of(rt, alloc, "http://127.0.0.1:9000/hook?a=1"),
        role: text_of(rt, alloc, "r"),
        queue: Some(text_of(rt, alloc, "arn:aws:sqs:local:000000000000:dead")),
        input: Some(text_of(rt, alloc, "{\"k\":\"\\n\"}")),
    }
}

/// A content without anything that can be left out.
fn plain_content(rt: &impl Abort, alloc: Global) -> Schedule {
    Schedule {
        description: text_of(rt, alloc, ""),
        text: text_of(rt, alloc, "at(1970-01-01T00:16:40)"),
        expr: Expr::At(Civil {
            year: 1970,
            month: 1,
            day: 1,
            hour: 0,
            minute: 16,
            second: 40,
        }),
        zone: zone_of(rt, alloc, "UTC"),
        start: None,
        finish: None,
        enabled: true,
        delete_after: false,
        window: 0,
        policy: Policy {
            retries: 185,
            age: 86_400,
        },
        target: text_of(rt, alloc, "http://localhost/"),
        role: text_of(rt, alloc, "r"),
        queue: None,
        input: None,
    }
}

fn whole(rt: &impl Abort, alloc: Global) -> ReadReply {
    ReadReply::Schedule {
        group: name_of(rt, alloc, "team"),
        name: name_of(rt, alloc, "night.job-1_a"),
        created: Moment(60),
        changed: Moment(120),
        content: whole_content(rt, alloc),
    }
}

fn plain(rt: &impl Abort, alloc: Global) -> ReadReply {
    ReadReply::Schedule {
        group: name_of(rt, alloc, "default"),
        name: name_of(rt, alloc, "a"),
        created: Moment(0),
        changed: Moment(0),
        content: plain_content(rt, alloc),
    }
}

#[test]
fn a_schedule_is_shown_whole(rt: HostRuntime) {
    let body = read_body(&rt, rt.alloc(), whole(&rt, rt.alloc()));
    assert_eq!(rt; body.as_slice(), WHOLE.as_bytes());
}

#[test]
fn what_is_not_there_is_left_out(rt: HostRuntime) {
    let body = read_body(&rt, rt.alloc(), plain(&rt, rt.alloc()));
    assert_eq!(rt; body.as_slice(), PLAIN.as_bytes());
}
