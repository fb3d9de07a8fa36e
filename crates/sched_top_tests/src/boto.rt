//! A creation as boto3 sends it, with its client token sent again.
use crate::runs::{Exchange, NOTHING, REPLIED, check_exchange};
use crate::texts::answers_text;
use std::alloc::{AllocError, Global};
use std::test::Fail;

/// The body that is sent.
const BODY: &str =
    r#"{"ActionAfterCompletion":"DELETE","ClientToken":"2f1c9d2e-3b1a-4c55-9a0e-0f2a6c1d7e11","FlexibleTimeWindow":{"Mode":"OFF"},"ScheduleExpression":"at(2026-01-01T00:10:00)","ScheduleExpressionTimezone":"UTC","StartDate":1767225600,"Target":{"Arn":"http://127.0.0.1:9000/hook","Input":"{\"n\":1}","RoleArn":"arn:aws:iam::123456789012:role/sched"}}"#;

/// The same with blanks between its members.
const SPACED: &str =
    r#"{"ActionAfterCompletion": "DELETE", "ClientToken": "2f1c9d2e-3b1a-4c55-9a0e-0f2a6c1d7e11", "FlexibleTimeWindow": {"Mode": "OFF"}, "ScheduleExpression": "at(2026-01-01T00:10:00)", "ScheduleExpressionTimezone": "UTC", "StartDate": 1767225600, "Target": {"Arn": "http://127.0.0.1:9000/hook", "Input": "{\"n\":1}", "RoleArn": "arn:aws:iam::123456789012:role/sched"}}"#;

/// With a description.
const DESCRIBED: &str =
    r#"{"Description":"x","ActionAfterCompletion":"DELETE","ClientToken":"2f1c9d2e-3b1a-4c55-9a0e-0f2a6c1d7e11","FlexibleTimeWindow":{"Mode":"OFF"},"ScheduleExpression":"at(2026-01-01T00:10:00)","ScheduleExpressionTimezone":"UTC","StartDate":1767225600,"Target":{"Arn":"http://127.0.0.1:9000/hook","Input":"{\"n\":1}","RoleArn":"arn:aws:iam::123456789012:role/sched"}}"#;

const SWEEP: &str = "POST /sweep HTTP/1.1\r\nX-Moment: 1767226200\r\n\r\n";

const GET: &str = "GET /schedules/once HTTP/1.1\r\n\r\n";

/// The creation with this body.
fn creation(alloc: Global, body: &str) -> Result<String, AllocError> {
    let bytes = body.len();
    format!(in alloc;
        "POST /schedules/once HTTP/1.1\r\nHost: localhost:8080\r\nUser-Agent: Boto3/1.34.0 md/Botocore#1.34.0 lang/python#3.12.0\r\nX-Moment: 1767225600\r\nX-Amz-Date: 20260101T000000Z\r\nAuthorization: AWS4-HMAC-SHA256 Credential=local/20260101/local/scheduler/aws4_request, SignedHeaders=host;x-amz-date, Signature=0123456789abcdef\r\nContent-Length: {bytes}\r\n\r\n{body}"
    )
}

/// These texts, one behind the other.
fn joined(alloc: Global, texts: &[&str]) -> Result<Vec<u8>, AllocError> {
    let mut all = Vec::new(alloc);
    for text in texts {
        all.extend_from_slice(text.as_bytes())?;
    }
    Ok(all)
}

/// These requests, and these answers.
fn exchange(alloc: Global, input: &[&str], answers: &str) -> Result<Exchange, AllocError> {
    let output = answers_text(alloc, answers)?;
    Ok(Exchange {
        input: joined(alloc, input)?,
        output: output.as_bytes().to_vec(alloc)?,
    })
}

const KEPT: &str = r#"200 2 {"ScheduleArn":"<arn>:schedule/default/once"}
200 2 {"ScheduleArn":"<arn>:schedule/default/once"}
200 2 {"ScheduleArn":"<arn>:schedule/default/once"}
409 2 {"Message":"rule 8: step 2"}"#;

#[test]
fn a_token_is_kept_with_its_content(rt: HostRuntime) -> Result<(), Fail> {
    let alloc = rt.alloc();
    let first = creation(alloc, BODY)?;
    let spaced = creation(alloc, SPACED)?;
    let described = creation(alloc, DESCRIBED)?;
    let input = [
        first.as_str(),
        first.as_str(),
        spaced.as_str(),
        described.as_str(),
    ];
    let exchange = exchange(alloc, &input, KEPT)?;
    check_exchange(&rt, alloc, NOTHING, exchange, "")?;
    Ok(())
}

const KEPT_FOR_GOOD: &str = r#"200 2 {"ScheduleArn":"<arn>:schedule/default/once"}
200 30 {"Moment":1767226200}
404 30 {"Message":"rule 10: default/once"}
200 30 {"ScheduleArn":"<arn>:schedule/default/once"}
404 30 {"Message":"rule 10: default/once"}
200 54 {"Moment":1767226200}"#;

/// The schedule was sent and is removed; its token still gets the first reply, and creates nothing.
#[test]
fn a_token_outlives_its_schedule(rt: HostRuntime) -> Result<(), Fail> {
    let alloc = rt.alloc();
    let first = creation(alloc, BODY)?;
    let input = [first.as_str(), SWEEP, GET, first.as_str(), GET, SWEEP];
    let attempt = "00000001000000006955bb58 1 default/once 2026-01-01T00:10:00Z {\"n\":1}";
    let exchange = exchange(alloc, &input, KEPT_FOR_GOOD)?;
    check_exchange(&rt, alloc, REPLIED, exchange, attempt)?;
    Ok(())
}
