//! What is a body, and what is none.
use crate::samples::{BODY, Place, check_table, repeated, told};
use std::alloc::Global;
use std::process::Abort;

/// Nothing before and nothing behind: the lines are bodies.
const ALONE: Place = Place {
    front: "",
    back: "",
};

const BODIES: &str = r#"{} | 400 rule 7: "ScheduleExpression"
 { } | 400 rule 7: "ScheduleExpression"
  | 400 rule 5: "body"
null | 400 rule 5: "body"
[] | 400 rule 5: "body"
"{}" | 400 rule 5: "body"
{ | 400 rule 5: "body"
{}} | 400 rule 5: "body"
{}{} | 400 rule 5: "body"
{"State":"ENABLED",} | 400 rule 5: "body"
{'State':0} | 400 rule 5: "body"
{"State":NaN} | 400 rule 5: "body"
{"State":01} | 400 rule 5: "body"
{"Zed":1e999} | 400 rule 5: "body"
{"Zed":"\ud800"} | 400 rule 5: "body""#;

/// Fields that are not there at all.
const LEFT_OUT: &str =
    r#"{"FlexibleTimeWindow":{"Mode":"OFF"},"Target":{"Arn":"http://localhost/","RoleArn":"r"}} | 400 rule 7: "ScheduleExpression"
{"ScheduleExpression":"rate(1 hour)","Target":{"Arn":"http://localhost/","RoleArn":"r"}} | 400 rule 7: "FlexibleTimeWindow"
{"ScheduleExpression":"rate(1 hour)","FlexibleTimeWindow":{"Mode":"OFF"}} | 400 rule 7: "Target"
{"ScheduleExpression":"rate(1 hour)","FlexibleTimeWindow":{"Mode":"OFF"},"Target":{"Arn":"http://localhost/","RoleArn":"r"}} | zone: ZoneName { text: "UTC" }, start: None, finish: None, enabled: true, delete_after: false, window: 0, policy: Policy { retries: 185, age: 86400 }"#;

const REPEATED: &str = r#""State":"DISABLED","State":"ENABLED" | enabled: true
"State":0,"State":"DISABLED" | enabled: false
"State":"DISABLED","State":0 | 400 rule 7: "State"
"State":"DISABLED","State":null | enabled: true"#;

fn check_bytes(rt: &impl Abort, alloc: Global, body: &[u8], wanted: &str) {
    let told = told(rt, alloc, body);
    assert!(rt; told.contains(wanted), "{told}");
}

/// A body of its own level and so many lists in one another.
fn check_levels(rt: &impl Abort, alloc: Global, lists: usize, wanted: &str) {
    let front = repeated(rt, alloc, "[", lists);
    let back = repeated(rt, alloc, "]", lists);
    let body = format!(in alloc; "{{\"Zed\":{front}{back}}}").expect(rt, "memory for a body");
    check_bytes(rt, alloc, body.as_bytes(), wanted);
}

#[test]
fn a_body_is_a_json_object(rt: HostRuntime) {
    check_table(&rt, rt.alloc(), &ALONE, BODIES);
    check_bytes(&rt, rt.alloc(), b"", "400 rule 7: \"ScheduleExpression\"");
}

#[test]
fn a_body_is_utf8(rt: HostRuntime) {
    check_bytes(
        &rt,
        rt.alloc(),
        b"{\"Zed\":\"\xff\"}",
        "400 rule 5: \"body\"",
    );
    check_bytes(&rt, rt.alloc(), b"{\"\xc3\":0}", "400 rule 5: \"body\"");
    check_bytes(
        &rt,
        rt.alloc(),
        b"{\"Zed\":\"\xc3\xa9\"}",
        "400 rule 6: \"Zed\"",
    );
}

#[test]
fn a_body_has_at_most_127_levels(rt: HostRuntime) {
    check_levels(&rt, rt.alloc(), 126, "400 rule 6: \"Zed\"");
    check_levels(&rt, rt.alloc(), 127, "400 rule 5: \"body\"");
}

#[test]
fn what_is_needed_is_not_left_out(rt: HostRuntime) {
    check_table(&rt, rt.alloc(), &ALONE, LEFT_OUT);
}

#[test]
fn the_last_of_a_repeated_member_counts(rt: HostRuntime) {
    check_table(&rt, rt.alloc(), &BODY, REPEATED);
}
