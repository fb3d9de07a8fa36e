//! Creations and updates of schedules.
use crate::samples::{check_request, repeated, request_of, told};
use std::alloc::Global;
use std::process::Abort;

/// What boto3 sends, without spaces.
const SENT: &str =
    r#"{"ActionAfterCompletion":"DELETE","ClientToken":"2f1c9d2e-3b1a-4c55-9a0e-0f2a6c1d7e11","FlexibleTimeWindow":{"Mode":"OFF"},"ScheduleExpression":"at(2026-01-01T00:10:00)","ScheduleExpressionTimezone":"UTC","StartDate":1767225600,"Target":{"Arn":"http://127.0.0.1:9000/hook","Input":"{\"n\":1}","RoleArn":"arn:aws:iam::123456789012:role/sched"}}"#;

/// The same with its own spaces.
const SPACED: &str =
    r#"{"ActionAfterCompletion": "DELETE", "ClientToken": "2f1c9d2e-3b1a-4c55-9a0e-0f2a6c1d7e11", "FlexibleTimeWindow": {"Mode": "OFF"}, "ScheduleExpression": "at(2026-01-01T00:10:00)", "ScheduleExpressionTimezone": "UTC", "StartDate": 1767225600, "Target": {"Arn": "http://127.0.0.1:9000/hook", "Input": "{\"n\":1}", "RoleArn": "arn:aws:iam::123456789012:role/sched"}}"#;

/// What it asks for.
const ASKED: &str =
    r#"{ group: Name { text: "default" }, name: Name { text: "once" }, token: Some(Token { text: "2f1c9d2e-3b1a-4c55-9a0e-0f2a6c1d7e11" }), content: Schedule { description: Text { text: "" }, text: Text { text: "at(2026-01-01T00:10:00)" }, expr: At(Civil { year: 2026, month: 1, day: 1, hour: 0, minute: 10, second: 0 }), zone: ZoneName { text: "UTC" }, start: Some(1767225600), finish: None, enabled: true, delete_after: true, window: 0, policy: Policy { retries: 185, age: 86400 }, target: Text { text: "http://127.0.0.1:9000/hook" }, role: Text { text: "arn:aws:iam::123456789012:role/sched" }, queue: None, input: Some(Text { text: "{\"n\":1}" }) } })"#;

/// What is added to a body with what it needs, and a piece of what is answered.
const ADDED: &str =
    r#""GroupName":null,"ClientToken":null | group: Name { text: "default" }, name: Name { text: "once" }, token: None
"GroupName":"team","ClientToken":"A-z_0" | group: Name { text: "team" }, name: Name { text: "once" }, token: Some(Token { text: "A-z_0" })
"GroupName":"" | 400 rule 7: "GroupName"
"GroupName":"a/b" | 400 rule 7: "GroupName"
"GroupName":7 | 400 rule 7: "GroupName"
"ClientToken":"" | 400 rule 7: "ClientToken"
"ClientToken":"a.b" | 400 rule 7: "ClientToken"
"ClientToken":[] | 400 rule 7: "ClientToken"
"ClientToken":0,"GroupName":0 | 400 rule 7: "GroupName"
"Description":0,"ClientToken":0 | 400 rule 7: "ClientToken"
"Description":0,"Zed":0 | 400 rule 6: "Zed"
"Tags":[{"Key":"k","Value":"v"}] | 400 rule 6: "Tags"
"KmsKeyArn":"k" | 400 rule 6: "KmsKeyArn"
"Name":"once" | 400 rule 6: "Name"
"groupName":"team" | 400 rule 6: "groupName""#;

fn body_with(rt: &impl Abort, alloc: Global, added: &str) -> String {
    format!(in alloc;
        r#"{{"FlexibleTimeWindow":{{"Mode":"OFF"}},"ScheduleExpression":"rate(1 hour)","Target":{{"Arn":"http://localhost/","RoleArn":"r"}},{added}}}"#
    ).expect(rt, "memory for a body")
}

fn check_added(rt: &impl Abort, alloc: Global, added: &str, wanted: &str) {
    let body = body_with(rt, alloc, added);
    check_request(rt, alloc, "POST /schedules/once", body.as_bytes(), wanted);
    check_request(
        rt,
        alloc,
        "PUT /schedules/once?groupName=x",
        body.as_bytes(),
        wanted,
    );
}

fn check_line(rt: &impl Abort, alloc: Global, line: &str) {
    let (added, wanted) = line.split_once(" | ").expect(rt, "a line has two columns");
    check_added(rt, alloc, added, wanted);
}

/// The same where a member is a letter so many times.
fn check_long(rt: &impl Abort, alloc: Global, name: &str, times: usize, wanted: &str) {
    let value = repeated(rt, alloc, "n", times);
    let added = format!(in alloc; r#""{name}":"{value}""#).expect(rt, "memory for a member");
    check_added(rt, alloc, added.as_str(), wanted);
}

/// What is answered to a creation with this body, whole.
fn check_creation(rt: &impl Abort, alloc: Global, body: &str) {
    let request = request_of(rt, alloc, "POST", "/schedules/once", body.as_bytes());
    let told = told(rt, alloc, &request, true);
    let wanted = format!(in alloc; "Write(CreateSchedule {ASKED}").expect(rt, "memory");
    assert_eq!(rt; told.as_str(), wanted.as_str());
}

#[test]
fn two_spellings_ask_for_one_write(rt: HostRuntime) {
    check_creation(&rt, rt.alloc(), SENT);
    check_creation(&rt, rt.alloc(), SPACED);
}

#[test]
fn an_update_has_the_same_fields(rt: HostRuntime) {
    let request = request_of(&rt, rt.alloc(), "PUT", "/schedules/once", SENT.as_bytes());
    let told = told(&rt, rt.alloc(), &request, false);
    let wanted = format!(in rt.alloc(); "Write(UpdateSchedule {ASKED}").expect(&rt, "memory");
    assert_eq!(rt; told.as_str(), wanted.as_str());
}

#[test]
fn a_group_and_a_token_may_be_named(rt: HostRuntime) {
    for line in ADDED.lines() {
        check_line(&rt, rt.alloc(), line);
    }
}

#[test]
fn they_have_at_most_64_bytes(rt: HostRuntime) {
    check_long(
        &rt,
        rt.alloc(),
        "GroupName",
        64,
        "group: Name { text: \"nnn",
    );
    check_long(&rt, rt.alloc(), "GroupName", 65, "7: \"GroupName\"");
    check_long(&rt, rt.alloc(), "ClientToken", 64, "Token { text: \"nnn");
    check_long(&rt, rt.alloc(), "ClientToken", 65, "7: \"ClientToken\"");
}

#[test]
fn a_name_is_looked_at_before_the_fields(rt: HostRuntime) {
    let body = body_with(&rt, rt.alloc(), r#""GroupName":0"#);
    check_request(
        &rt,
        rt.alloc(),
        "PUT /schedules/~",
        body.as_bytes(),
        "400 rule 7: \"Name\"",
    );
    check_request(
        &rt,
        rt.alloc(),
        "PUT /schedules/~",
        b"{\"Zed\":0}",
        "400 rule 6: \"Zed\"",
    );
}
