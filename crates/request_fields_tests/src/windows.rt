//! The flexible window and the retries, which are objects of numbers.
use crate::samples::{BODY, TARGET, check_table};

const WINDOWS: &str = r#""FlexibleTimeWindow":null | 400 rule 7: "FlexibleTimeWindow"
"FlexibleTimeWindow":"OFF" | 400 rule 7: "FlexibleTimeWindow"
"FlexibleTimeWindow":[] | 400 rule 7: "FlexibleTimeWindow"
"FlexibleTimeWindow":{} | 400 rule 7: "FlexibleTimeWindow.Mode"
"FlexibleTimeWindow":{"Mode":null} | 400 rule 7: "FlexibleTimeWindow.Mode"
"FlexibleTimeWindow":{"Mode":"off"} | 400 rule 7: "FlexibleTimeWindow.Mode"
"FlexibleTimeWindow":{"Mode":0} | 400 rule 7: "FlexibleTimeWindow.Mode"
"FlexibleTimeWindow":{"MaximumWindowInMinutes":0} | 400 rule 7: "FlexibleTimeWindow.Mode"
"FlexibleTimeWindow":{"Mode":"FLEXIBLE","Mode":"OFF"} | window: 0"#;

const FLEXIBLE: &str =
    r#""FlexibleTimeWindow":{"Mode":"FLEXIBLE","MaximumWindowInMinutes":1} | window: 1,
"FlexibleTimeWindow":{"Mode":"FLEXIBLE","MaximumWindowInMinutes":1440} | window: 1440,
"FlexibleTimeWindow":{"Mode":"FLEXIBLE"} | 400 rule 7: "FlexibleTimeWindow.MaximumWindowInMinutes"
"FlexibleTimeWindow":{"Mode":"FLEXIBLE","MaximumWindowInMinutes":null} | 400 rule 7: "FlexibleTimeWindow.MaximumWindowInMinutes"
"FlexibleTimeWindow":{"Mode":"FLEXIBLE","MaximumWindowInMinutes":0} | 400 rule 7: "FlexibleTimeWindow.MaximumWindowInMinutes"
"FlexibleTimeWindow":{"Mode":"FLEXIBLE","MaximumWindowInMinutes":1441} | 400 rule 7: "FlexibleTimeWindow.MaximumWindowInMinutes"
"FlexibleTimeWindow":{"Mode":"FLEXIBLE","MaximumWindowInMinutes":65537} | 400 rule 7: "FlexibleTimeWindow.MaximumWindowInMinutes"
"FlexibleTimeWindow":{"Mode":"FLEXIBLE","MaximumWindowInMinutes":1.0} | 400 rule 7: "FlexibleTimeWindow.MaximumWindowInMinutes"
"FlexibleTimeWindow":{"Mode":"FLEXIBLE","MaximumWindowInMinutes":1e1} | 400 rule 7: "FlexibleTimeWindow.MaximumWindowInMinutes"
"FlexibleTimeWindow":{"Mode":"FLEXIBLE","MaximumWindowInMinutes":"1"} | 400 rule 7: "FlexibleTimeWindow.MaximumWindowInMinutes""#;

const OFF: &str = r#""FlexibleTimeWindow":{"Mode":"OFF","MaximumWindowInMinutes":null} | window: 0,
"FlexibleTimeWindow":{"Mode":"OFF","MaximumWindowInMinutes":0} | window: 0,
"FlexibleTimeWindow":{"Mode":"OFF","MaximumWindowInMinutes":15} | window: 0,
"FlexibleTimeWindow":{"Mode":"OFF","MaximumWindowInMinutes":1441} | window: 0,
"FlexibleTimeWindow":{"Mode":"OFF","MaximumWindowInMinutes":-1.5e9} | window: 0,
"FlexibleTimeWindow":{"Mode":"OFF","MaximumWindowInMinutes":"x"} | window: 0,
"FlexibleTimeWindow":{"Mode":"OFF","MaximumWindowInMinutes":[{}]} | window: 0,
"FlexibleTimeWindow":{"Mode":"OFF","MaximumWindowInMinutes":{"Zed":1}} | window: 0,"#;

const RETRIES: &str = r#""RetryPolicy":null | policy: Policy { retries: 185, age: 86400 }
"RetryPolicy":{} | policy: Policy { retries: 185, age: 86400 }
"RetryPolicy":{"MaximumRetryAttempts":null,"MaximumEventAgeInSeconds":null} | policy: Policy { retries: 185, age: 86400 }
"RetryPolicy":{"MaximumRetryAttempts":0} | policy: Policy { retries: 0, age: 86400 }
"RetryPolicy":{"MaximumRetryAttempts":185} | policy: Policy { retries: 185, age: 86400 }
"RetryPolicy":{"MaximumRetryAttempts":186} | 400 rule 7: "Target.RetryPolicy.MaximumRetryAttempts"
"RetryPolicy":{"MaximumRetryAttempts":256} | 400 rule 7: "Target.RetryPolicy.MaximumRetryAttempts"
"RetryPolicy":{"MaximumRetryAttempts":-0} | 400 rule 7: "Target.RetryPolicy.MaximumRetryAttempts"
"RetryPolicy":{"MaximumRetryAttempts":1.0} | 400 rule 7: "Target.RetryPolicy.MaximumRetryAttempts"
"RetryPolicy":{"MaximumRetryAttempts":"0"} | 400 rule 7: "Target.RetryPolicy.MaximumRetryAttempts"
"RetryPolicy":[] | 400 rule 7: "Target.RetryPolicy"
"RetryPolicy":0 | 400 rule 7: "Target.RetryPolicy""#;

const AGES: &str =
    r#""RetryPolicy":{"MaximumEventAgeInSeconds":60} | policy: Policy { retries: 185, age: 60 }
"RetryPolicy":{"MaximumEventAgeInSeconds":86400} | policy: Policy { retries: 185, age: 86400 }
"RetryPolicy":{"MaximumEventAgeInSeconds":59} | 400 rule 7: "Target.RetryPolicy.MaximumEventAgeInSeconds"
"RetryPolicy":{"MaximumEventAgeInSeconds":86401} | 400 rule 7: "Target.RetryPolicy.MaximumEventAgeInSeconds"
"RetryPolicy":{"MaximumEventAgeInSeconds":4294967356} | 400 rule 7: "Target.RetryPolicy.MaximumEventAgeInSeconds"
"RetryPolicy":{"MaximumEventAgeInSeconds":6e1} | 400 rule 7: "Target.RetryPolicy.MaximumEventAgeInSeconds"
"RetryPolicy":{"MaximumEventAgeInSeconds":true} | 400 rule 7: "Target.RetryPolicy.MaximumEventAgeInSeconds"
"RetryPolicy":{"MaximumEventAgeInSeconds":59,"MaximumRetryAttempts":186} | 400 rule 7: "Target.RetryPolicy.MaximumRetryAttempts""#;

#[test]
fn a_window_is_an_object_with_a_mode(rt: HostRuntime) {
    check_table(&rt, rt.alloc(), &BODY, WINDOWS);
}

#[test]
fn a_flexible_window_has_1_to_1440_minutes(rt: HostRuntime) {
    check_table(&rt, rt.alloc(), &BODY, FLEXIBLE);
}

#[test]
fn with_off_nothing_is_looked_at(rt: HostRuntime) {
    check_table(&rt, rt.alloc(), &BODY, OFF);
}

#[test]
fn at_most_185_retries(rt: HostRuntime) {
    check_table(&rt, rt.alloc(), &TARGET, RETRIES);
}

#[test]
fn an_age_of_60_to_86400_seconds(rt: HostRuntime) {
    check_table(&rt, rt.alloc(), &TARGET, AGES);
}
