//! Sweeps: what is entered, sent, tried again, given up and removed, and how many steps it takes.
use crate::runs::{NOTHING, Outside, REPLIED, check};
use std::alloc::{AllocError, Global};
use std::test::Fail;

/// The one attempt of `once`.
const ONE_ATTEMPT: &str = "0000000100000000000003e8 1 default/once 1970-01-01T00:16:40Z";

const SENT_ONCE: &str = r#"900 POST /schedules/once <once>
    200 2 {"ScheduleArn":"<arn>:schedule/default/once"}
1000 POST /sweep
    200 29 {"Moment":1000}
1000 POST /sweep
    200 53 {"Moment":1000}
10 POST /sweep {"ignored":
    200 77 {"Moment":1000}"#;

#[test]
fn an_occurrence_is_sent_once(rt: HostRuntime) -> Result<(), Fail> {
    check(&rt, rt.alloc(), REPLIED, SENT_ONCE, ONE_ATTEMPT)?;
    Ok(())
}

const GIVEN_UP: &str = r#"900 POST /schedules/once <once>
    200 2 {"ScheduleArn":"<arn>:schedule/default/once"}
1000 POST /sweep
    200 30 {"Moment":1000}
1000 POST /schedules/once <once>
    409 30 {"Message":"rule 10: default/once"}"#;

#[test]
fn a_lost_attempt_may_be_the_last(rt: HostRuntime) -> Result<(), Fail> {
    check(&rt, rt.alloc(), NOTHING, GIVEN_UP, ONE_ATTEMPT)?;
    Ok(())
}

const TOO_OLD: &str = r#"900 POST /schedules/once <once>
    200 2 {"ScheduleArn":"<arn>:schedule/default/once"}
87401 POST /sweep
    200 28 {"Moment":87401}"#;

#[test]
fn an_old_occurrence_is_closed_unsent(rt: HostRuntime) -> Result<(), Fail> {
    check(&rt, rt.alloc(), REPLIED, TOO_OLD, "")?;
    Ok(())
}

const REMOVED: &str =
    r#"0 POST /schedules/leap {"ActionAfterCompletion":"DELETE",<off>,"ScheduleExpression":"cron(0 0 29 2 ? 2026-2027)",<target>}
    200 2 {"ScheduleArn":"<arn>:schedule/default/leap"}
0 POST /sweep
    200 27 {"Moment":0}
0 GET /schedules/leap
    404 27 {"Message":"rule 10: default/leap"}"#;

#[test]
fn what_never_occurs_is_removed(rt: HostRuntime) -> Result<(), Fail> {
    check(&rt, rt.alloc(), NOTHING, REMOVED, "")?;
    Ok(())
}

const CAUGHT_UP: &str =
    r#"1000 POST /schedules/hourly {<off>,"ScheduleExpression":"rate(1 hours)",<target>}
    200 2 {"ScheduleArn":"<arn>:schedule/default/hourly"}
1000 PUT /schedules/hourly {<off>,"ScheduleExpression":"rate(1 hours)",<target>}
    200 4 {"ScheduleArn":"<arn>:schedule/default/hourly"}
1000 POST /sweep
    200 30 {"Moment":1000}
1000 GET /executions/0000000100000000000003e8
    200 30 {"Attempts":[{"Begun":1000,"Number":1,"Verdict":"Done"}],"Chosen":1000,"ExecutionId":"0000000100000000000003e8","Instant":1000,"Outcome":"Done","ScheduleArn":"<arn>:schedule/default/hourly"}
1000 GET /executions/0000000100000000000011f8
    404 30 {"Message":"rule 10: 0000000100000000000011f8"}"#;

#[test]
fn an_update_enters_what_is_due_first(rt: HostRuntime) -> Result<(), Fail> {
    let attempt = "0000000100000000000003e8 1 default/hourly 1970-01-01T00:16:40Z";
    check(&rt, rt.alloc(), REPLIED, CAUGHT_UP, attempt)?;
    Ok(())
}

const IN_A_WINDOW: &str =
    r#"900 POST /schedules/once {"FlexibleTimeWindow":{"MaximumWindowInMinutes":15,"Mode":"FLEXIBLE"},<at>,<target>}
    200 2 {"ScheduleArn":"<arn>:schedule/default/once"}
1000 POST /sweep
    200 27 {"Moment":1000}
1000 GET /executions/0000000100000000000003e8
    200 27 {"Attempts":[],"Chosen":1001,"ExecutionId":"0000000100000000000003e8","Instant":1000,"Outcome":"Undecided","ScheduleArn":"<arn>:schedule/default/once"}
1001 POST /sweep
    200 53 {"Moment":1001}
1001 GET /executions/0000000100000000000003e8
    200 53 {"Attempts":[{"Begun":1001,"Number":1,"Verdict":"Done"}],"Chosen":1001,"ExecutionId":"0000000100000000000003e8","Instant":1000,"Outcome":"Done","ScheduleArn":"<arn>:schedule/default/once"}"#;

#[test]
fn a_word_chooses_in_a_window(rt: HostRuntime) -> Result<(), Fail> {
    let outside = Outside {
        words: &[901],
        ..REPLIED
    };
    check(&rt, rt.alloc(), outside, IN_A_WINDOW, ONE_ATTEMPT)?;
    Ok(())
}

const CANCELLED: &str = r#"900 POST /schedule-groups/g
    200 2 {"ScheduleGroupArn":"<arn>:schedule-group/g"}
900 POST /schedules/x {"FlexibleTimeWindow":{"MaximumWindowInMinutes":15,"Mode":"FLEXIBLE"},"GroupName":"g",<at>,<target>}
    200 3 {"ScheduleArn":"<arn>:schedule/g/x"}
1000 POST /sweep
    200 28 {"Moment":1000}
1200 DELETE /schedule-groups/g
    200 29
1200 GET /executions/0000000100000000000003e8
    200 29 {"Attempts":[],"Chosen":1600,"ExecutionId":"0000000100000000000003e8","Instant":1000,"Outcome":"Cancelled","ScheduleArn":"<arn>:schedule/g/x"}
1200 POST /schedules/x {"FlexibleTimeWindow":{"MaximumWindowInMinutes":15,"Mode":"FLEXIBLE"},"GroupName":"g",<at>,<target>}
    404 29 {"Message":"rule 9: g"}
1600 POST /sweep
    200 53 {"Moment":1600}"#;

#[test]
fn a_deletion_cancels_what_is_undecided(rt: HostRuntime) -> Result<(), Fail> {
    let outside = Outside {
        words: &[600],
        ..REPLIED
    };
    check(&rt, rt.alloc(), outside, CANCELLED, "")?;
    Ok(())
}

const CAUGHT_UP_IN_WINDOWS: &str =
    r#"0 POST /schedules/hourly {"FlexibleTimeWindow":{"MaximumWindowInMinutes":15,"Mode":"FLEXIBLE"},"ScheduleExpression":"rate(1 hour)",<target>}
    200 2 {"ScheduleArn":"<arn>:schedule/default/hourly"}
3600 DELETE /schedules/hourly
    200 4
3600 GET /executions/000000010000000000000000
    200 4 {"Attempts":[],"Chosen":5,"ExecutionId":"000000010000000000000000","Instant":0,"Outcome":"Cancelled","ScheduleArn":"<arn>:schedule/default/hourly"}
3600 GET /executions/000000010000000000000e10
    200 4 {"Attempts":[],"Chosen":3607,"ExecutionId":"000000010000000000000e10","Instant":3600,"Outcome":"Cancelled","ScheduleArn":"<arn>:schedule/default/hourly"}"#;

/// A word an entry, in the order of the entries.
#[test]
fn a_deletion_enters_what_is_due_first(rt: HostRuntime) -> Result<(), Fail> {
    let outside = Outside {
        words: &[905, 7],
        ..NOTHING
    };
    check(&rt, rt.alloc(), outside, CAUGHT_UP_IN_WINDOWS, "")?;
    Ok(())
}

const CREATED_AGAIN: &str = r#"900 POST /schedules/once <once>
    200 2 {"ScheduleArn":"<arn>:schedule/default/once"}
900 DELETE /schedules/once
    200 3
900 POST /schedules/once <once>
    200 4 {"ScheduleArn":"<arn>:schedule/default/once"}
900 POST /schedules/never {<off>,<at>,"State":"DISABLED",<target>}
    200 5 {"ScheduleArn":"<arn>:schedule/default/never"}
1000 POST /sweep
    200 32 {"Moment":1000}
1000 GET /executions/0000000300000000000003e8
    404 32 {"Message":"rule 10: 0000000300000000000003e8"}"#;

#[test]
fn a_schedule_created_again_is_another(rt: HostRuntime) -> Result<(), Fail> {
    let attempt = "0000000200000000000003e8 1 default/once 1970-01-01T00:16:40Z";
    check(&rt, rt.alloc(), REPLIED, CREATED_AGAIN, attempt)?;
    Ok(())
}

const EIGHT: &str = r#"900 POST /schedules/a <once>
    200 2 {"ScheduleArn":"<arn>:schedule/default/a"}
900 POST /schedules/b <once>
    200 3 {"ScheduleArn":"<arn>:schedule/default/b"}
900 POST /schedules/c <once>
    200 4 {"ScheduleArn":"<arn>:schedule/default/c"}
900 POST /schedules/d <once>
    200 5 {"ScheduleArn":"<arn>:schedule/default/d"}
900 POST /schedules/e <once>
    200 6 {"ScheduleArn":"<arn>:schedule/default/e"}
900 POST /schedules/f <once>
    200 7 {"ScheduleArn":"<arn>:schedule/default/f"}
900 POST /schedules/g <once>
    200 8 {"ScheduleArn":"<arn>:schedule/default/g"}
900 POST /schedules/h <once>
    200 9 {"ScheduleArn":"<arn>:schedule/default/h"}
1000 POST /sweep
    200 57 {"Moment":1000}"#;

/// Incarnation 8 is in shard 0.
const BY_SHARDS: &str = "0000000800000000000003e8 1 default/h 1970-01-01T00:16:40Z
0000000100000000000003e8 1 default/a 1970-01-01T00:16:40Z
0000000200000000000003e8 1 default/b 1970-01-01T00:16:40Z
0000000300000000000003e8 1 default/c 1970-01-01T00:16:40Z
0000000400000000000003e8 1 default/d 1970-01-01T00:16:40Z
0000000500000000000003e8 1 default/e 1970-01-01T00:16:40Z
0000000600000000000003e8 1 default/f 1970-01-01T00:16:40Z
0000000700000000000003e8 1 default/g 1970-01-01T00:16:40Z";

#[test]
fn a_sweep_goes_by_shards(rt: HostRuntime) -> Result<(), Fail> {
    let outside = Outside {
        replies: "200 200 200 200 200 200 200 200",
        ..NOTHING
    };
    check(&rt, rt.alloc(), outside, EIGHT, BY_SHARDS)?;
    Ok(())
}

const TWO_DAYS: &str =
    r#"0 POST /schedules/hourly {<off>,"ScheduleExpression":"rate(1 hours)",<target>}
    200 2 {"ScheduleArn":"<arn>:schedule/default/hourly"}
172800 POST /sweep
    200 101 {"Moment":172800}
172800 GET /executions/000000010000000000014370
    200 101 {"Attempts":[],"Chosen":82800,"ExecutionId":"000000010000000000014370","Instant":82800,"Outcome":"Age","ScheduleArn":"<arn>:schedule/default/hourly"}
172800 GET /executions/000000010000000000015180
    200 101 {"Attempts":[{"Begun":172800,"Number":1,"Verdict":"Done"}],"Chosen":86400,"ExecutionId":"000000010000000000015180","Instant":86400,"Outcome":"Done","ScheduleArn":"<arn>:schedule/default/hourly"}
172800 GET /executions/00000001000000000002b110
    404 101 {"Message":"rule 10: 00000001000000000002b110"}"#;

/// The attempts of the hours 24 to 48.
fn hourly_attempts(alloc: Global) -> Result<String, AllocError> {
    let mut attempts = String::new(alloc);
    for hour in 24..49_u32 {
        let (day, of_day, instant) = (1 + hour / 24, hour % 24, hour * 3_600);
        let line = format!(in alloc;
            "00000001{instant:016x} 1 default/hourly 1970-01-0{day}T{of_day:02}:00:00Z\n"
        )?;
        attempts.push_str(line.as_str())?;
    }
    Ok(attempts)
}

/// Two days of hours stand open at the first sweep; hour 24 is exactly a day old.
#[test]
fn what_is_older_than_a_day_is_closed(rt: HostRuntime) -> Result<(), Fail> {
    let outside = Outside {
        replies: "200 200 200 200 200 200 200 200 200 200 200 200 200 200 200 200 200 200 200 200 200 200 200 200 200",
        ..NOTHING
    };
    let attempts = hourly_attempts(rt.alloc())?;
    check(&rt, rt.alloc(), outside, TWO_DAYS, attempts.as_str())?;
    Ok(())
}

const MINUTES: &str =
    r#"0 POST /schedules/often {<off>,"ScheduleExpression":"rate(1 minute)","Target":{"Arn":"<hook>","RetryPolicy":{"MaximumRetryAttempts":0},"RoleArn":"r"}}
    200 2 {"ScheduleArn":"<arn>:schedule/default/often"}
15420 POST /sweep
    200 802 {"Moment":15420}"#;

/// The attempts of the minutes 0 to 257.
fn attempts_by_minute(alloc: Global) -> Result<String, AllocError> {
    let mut attempts = String::new(alloc);
    for minute in 0..258_u32 {
        let (hour, of_hour, instant) = (minute / 60, minute % 60, minute * 60);
        let line = format!(in alloc;
            "00000001{instant:016x} 1 default/often 1970-01-01T{hour:02}:{of_hour:02}:00Z\n"
        )?;
        attempts.push_str(line.as_str())?;
    }
    Ok(attempts)
}

/// Two Enters, of 256 occurrences and of 2; each attempt is lost, and closed.
#[test]
fn an_enter_has_at_most_256_occurrences(rt: HostRuntime) -> Result<(), Fail> {
    let attempts = attempts_by_minute(rt.alloc())?;
    check(&rt, rt.alloc(), NOTHING, MINUTES, attempts.as_str())?;
    Ok(())
}
