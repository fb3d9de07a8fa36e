//! Attempts that fail: when they are tried again, when they are given up, and the letters that are left.
use crate::runs::{NOTHING, Outside, check};
use std::test::Fail;

const THREE_LOST: &str =
    r#"900 POST /schedules/once {<off>,<at>,"Target":{"Arn":"<hook>","DeadLetterConfig":{"Arn":"<dead>"},"RetryPolicy":{"MaximumRetryAttempts":2},"RoleArn":"r"}}
    200 2 {"ScheduleArn":"<arn>:schedule/default/once"}
1000 POST /sweep
    200 29 {"Moment":1000}
1001 POST /sweep
    200 55 {"Moment":1001}
1001 GET /dead-letters?Queue=<dead>
    200 55 {"Letters":[]}
1003 POST /sweep
    200 82 {"Moment":1003}
1003 GET /executions/0000000100000000000003e8
    200 82 {"Attempts":[{"Begun":1000,"Number":1,"Verdict":"Retry"},{"Begun":1001,"Number":2,"Verdict":"Retry"},{"Begun":1003,"Number":3,"Verdict":"Retry"}],"Chosen":1000,"ExecutionId":"0000000100000000000003e8","Instant":1000,"Outcome":"Attempts","ScheduleArn":"<arn>:schedule/default/once"}
1003 GET /dead-letters?Queue=<dead>
    200 82 {"Letters":[{"ExecutionId":"0000000100000000000003e8","Number":1,"Reason":"Attempts","ScheduleArn":"<arn>:schedule/default/once"}]}
1003 GET /dead-letters?Queue=<dead>&After=1
    200 82 {"Letters":[]}
1003 GET /dead-letters?Queue=arn:aws:sqs:local:000000000000:other
    200 82 {"Letters":[]}"#;

const THREE_ATTEMPTS: &str = "0000000100000000000003e8 1 default/once 1970-01-01T00:16:40Z
0000000100000000000003e8 2 default/once 1970-01-01T00:16:40Z
0000000100000000000003e8 3 default/once 1970-01-01T00:16:40Z";

#[test]
fn attempts_are_given_up_by_number(rt: HostRuntime) -> Result<(), Fail> {
    let outside = Outside {
        replies: "- - -",
        ..NOTHING
    };
    check(&rt, rt.alloc(), outside, THREE_LOST, THREE_ATTEMPTS)?;
    Ok(())
}

const SIX_LOST: &str =
    r#"900 POST /schedules/once {<off>,<at>,"Target":{"Arn":"<hook>","DeadLetterConfig":{"Arn":"<dead>"},"Input":"<aws.scheduler.attempt-number>","RetryPolicy":{"MaximumEventAgeInSeconds":60,"MaximumRetryAttempts":185},"RoleArn":"r"}}
    200 2 {"ScheduleArn":"<arn>:schedule/default/once"}
1000 POST /sweep
    200 29 {"Moment":1000}
1001 POST /sweep
    200 55 {"Moment":1001}
1003 POST /sweep
    200 81 {"Moment":1003}
1007 POST /sweep
    200 107 {"Moment":1007}
1015 POST /sweep
    200 133 {"Moment":1015}
1031 POST /sweep
    200 160 {"Moment":1031}
1031 GET /executions/0000000100000000000003e8
    200 160 {"Attempts":[{"Begun":1000,"Number":1,"Verdict":"Retry"},{"Begun":1001,"Number":2,"Verdict":"Retry"},{"Begun":1003,"Number":3,"Verdict":"Retry"},{"Begun":1007,"Number":4,"Verdict":"Retry"},{"Begun":1015,"Number":5,"Verdict":"Retry"},{"Begun":1031,"Number":6,"Verdict":"Retry"}],"Chosen":1000,"ExecutionId":"0000000100000000000003e8","Instant":1000,"Outcome":"Age","ScheduleArn":"<arn>:schedule/default/once"}
1031 GET /dead-letters?Queue=<dead>&After=0&MaxResults=1
    200 160 {"Letters":[{"ExecutionId":"0000000100000000000003e8","Number":1,"Reason":"Age","ScheduleArn":"<arn>:schedule/default/once"}]}"#;

const SIX_ATTEMPTS: &str = "0000000100000000000003e8 1 default/once 1970-01-01T00:16:40Z 1
0000000100000000000003e8 2 default/once 1970-01-01T00:16:40Z 2
0000000100000000000003e8 3 default/once 1970-01-01T00:16:40Z 3
0000000100000000000003e8 4 default/once 1970-01-01T00:16:40Z 4
0000000100000000000003e8 5 default/once 1970-01-01T00:16:40Z 5
0000000100000000000003e8 6 default/once 1970-01-01T00:16:40Z 6";

#[test]
fn attempts_are_given_up_by_age(rt: HostRuntime) -> Result<(), Fail> {
    check(&rt, rt.alloc(), NOTHING, SIX_LOST, SIX_ATTEMPTS)?;
    Ok(())
}

const FINAL: &str =
    r#"900 POST /schedules/once {<off>,<at>,"Target":{"Arn":"<hook>","DeadLetterConfig":{"Arn":"<dead>"},"RetryPolicy":{"MaximumRetryAttempts":2},"RoleArn":"r"}}
    200 2 {"ScheduleArn":"<arn>:schedule/default/once"}
1000 POST /sweep
    200 29 {"Moment":1000}
1000 GET /dead-letters?Queue=<dead>
    200 29 {"Letters":[{"ExecutionId":"0000000100000000000003e8","Number":1,"Reason":"Final","ScheduleArn":"<arn>:schedule/default/once"}]}
1001 POST /sweep
    200 53 {"Moment":1001}
1001 GET /executions/0000000100000000000003e8
    200 53 {"Attempts":[{"Begun":1000,"Number":1,"Verdict":"Final"}],"Chosen":1000,"ExecutionId":"0000000100000000000003e8","Instant":1000,"Outcome":"Final","ScheduleArn":"<arn>:schedule/default/once"}"#;

#[test]
fn a_final_reply_leaves_a_letter(rt: HostRuntime) -> Result<(), Fail> {
    let outside = Outside {
        replies: "404 200",
        ..NOTHING
    };
    let attempt = "0000000100000000000003e8 1 default/once 1970-01-01T00:16:40Z";
    check(&rt, rt.alloc(), outside, FINAL, attempt)?;
    Ok(())
}

const DONE_AT_LAST: &str = r#"900 POST /schedules/once {<off>,<at>,<target>}
    200 2 {"ScheduleArn":"<arn>:schedule/default/once"}
1000 POST /sweep
    200 29 {"Moment":1000}
1000 POST /sweep
    200 53 {"Moment":1000}
1002 POST /sweep
    200 79 {"Moment":1002}
1003 POST /sweep
    200 103 {"Moment":1003}
1004 POST /sweep
    200 129 {"Moment":1004}
1004 GET /executions/0000000100000000000003e8
    200 129 {"Attempts":[{"Begun":1000,"Number":1,"Verdict":"Retry"},{"Begun":1002,"Number":2,"Verdict":"Retry"},{"Begun":1004,"Number":3,"Verdict":"Done"}],"Chosen":1000,"ExecutionId":"0000000100000000000003e8","Instant":1000,"Outcome":"Done","ScheduleArn":"<arn>:schedule/default/once"}"#;

/// The wait counts from the end of the attempt before.
#[test]
fn an_attempt_is_tried_again(rt: HostRuntime) -> Result<(), Fail> {
    let outside = Outside {
        replies: "503 429 204",
        ..NOTHING
    };
    check(&rt, rt.alloc(), outside, DONE_AT_LAST, THREE_ATTEMPTS)?;
    Ok(())
}
