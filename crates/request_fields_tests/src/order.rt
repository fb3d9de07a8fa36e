//! The order of the fields, what is left out, and what a body says as a whole.
use crate::samples::{BODY, TARGET, check_table};

/// Two fields at fault each: the one that is looked at first is named.
const ORDER: &str = r#""ScheduleExpression":0,"Description":0 | 400 rule 7: "Description"
"ScheduleExpressionTimezone":0,"ScheduleExpression":0 | 400 rule 7: "ScheduleExpression"
"StartDate":-1,"ScheduleExpressionTimezone":0 | 400 rule 7: "ScheduleExpressionTimezone"
"EndDate":-1,"StartDate":-1 | 400 rule 7: "StartDate"
"State":0,"EndDate":-1 | 400 rule 7: "EndDate"
"ActionAfterCompletion":0,"State":0 | 400 rule 7: "State"
"FlexibleTimeWindow":0,"ActionAfterCompletion":0 | 400 rule 7: "ActionAfterCompletion"
"Target":0,"FlexibleTimeWindow":0 | 400 rule 7: "FlexibleTimeWindow"
"Target":0,"FlexibleTimeWindow":{"Mode":0} | 400 rule 7: "FlexibleTimeWindow.Mode"
"Target":0,"FlexibleTimeWindow":{"Mode":"FLEXIBLE"} | 400 rule 7: "FlexibleTimeWindow.MaximumWindowInMinutes""#;

const ORDER_OF_TARGETS: &str = r#""RoleArn":0,"Arn":0 | 400 rule 7: "Target.Arn"
"DeadLetterConfig":0,"RoleArn":0 | 400 rule 7: "Target.RoleArn"
"Input":0,"DeadLetterConfig":0 | 400 rule 7: "Target.DeadLetterConfig"
"Input":0,"DeadLetterConfig":{"Arn":0} | 400 rule 7: "Target.DeadLetterConfig.Arn"
"RetryPolicy":0,"Input":0 | 400 rule 7: "Target.Input"
"RetryPolicy":{"MaximumRetryAttempts":-1},"Input":0 | 400 rule 7: "Target.Input""#;

/// All that may be left out, by a null each.
const NULLS: &str =
    r#""Description":null,"ScheduleExpressionTimezone":null,"StartDate":null,"EndDate":null,"State":null,"ActionAfterCompletion":null,"GroupName":null,"ClientToken":null | Schedule { description: Text { text: "" }, text: Text { text: "rate(1 hour)" }, expr: Rate { count: 1, unit: Hour }, zone: ZoneName { text: "UTC" }, start: None, finish: None, enabled: true, delete_after: false, window: 0, policy: Policy { retries: 185, age: 86400 }, target: Text { text: "http://127.0.0.1:9000/hook" }, role: Text { text: "r" }, queue: None, input: None }"#;

/// All that may be said.
const WHOLE: &str =
    r#""Target":{"RoleArn":"role","RetryPolicy":{"MaximumRetryAttempts":3,"MaximumEventAgeInSeconds":61},"Input":"i","DeadLetterConfig":{"Arn":"arn:aws:sqs:a:b:c"},"Arn":"http://localhost/"},"Description":"d","ScheduleExpressionTimezone":"Europe/Berlin","StartDate":1,"EndDate":2,"State":"DISABLED","ActionAfterCompletion":"DELETE","FlexibleTimeWindow":{"Mode":"FLEXIBLE","MaximumWindowInMinutes":15} | Schedule { description: Text { text: "d" }, text: Text { text: "rate(1 hour)" }, expr: Rate { count: 1, unit: Hour }, zone: ZoneName { text: "Europe/Berlin" }, start: Some(1), finish: Some(2), enabled: false, delete_after: true, window: 15, policy: Policy { retries: 3, age: 61 }, target: Text { text: "http://localhost/" }, role: Text { text: "role" }, queue: Some(Text { text: "arn:aws:sqs:a:b:c" }), input: Some(Text { text: "i" }) }"#;

#[test]
fn the_first_field_at_fault_is_named(rt: HostRuntime) {
    check_table(&rt, rt.alloc(), &BODY, ORDER);
    check_table(&rt, rt.alloc(), &TARGET, ORDER_OF_TARGETS);
}

#[test]
fn each_default_and_each_value(rt: HostRuntime) {
    check_table(&rt, rt.alloc(), &BODY, NULLS);
    check_table(&rt, rt.alloc(), &BODY, WHOLE);
}
