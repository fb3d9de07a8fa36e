//! Requests to read over and over.
use http_wire::HttpRequest;
use sched_plain::{Blob, Items};
use std::alloc::{AllocError, Global};

/// What boto3 sends, without spaces.
const USUAL: &str =
    r#"{"ActionAfterCompletion":"DELETE","ClientToken":"2f1c9d2e-3b1a-4c55-9a0e-0f2a6c1d7e11","FlexibleTimeWindow":{"Mode":"OFF"},"ScheduleExpression":"at(2026-01-01T00:10:00)","ScheduleExpressionTimezone":"UTC","StartDate":1767225600,"Target":{"Arn":"http://127.0.0.1:9000/hook","Input":"{\"n\":1}","RoleArn":"arn:aws:iam::123456789012:role/sched"}}"#;

/// What stands before the input of the longest body, and what behind it.
const FRONT: &str =
    r#"{"FlexibleTimeWindow":{"Mode":"OFF"},"ScheduleExpression":"cron(0 9 ? * MON-FRI *)","ScheduleExpressionTimezone":"America/New_York","Target":{"Arn":"http://127.0.0.1:9000/hook","RoleArn":"r","Input":""#;

const BACK: &str = r#""}}"#;

/// As many bytes as a body may have.
const LONGEST_BODY: usize = 262_144;

/// As many bytes as a query may have beside the least head.
const LONGEST_QUERY: usize = 16_000;

/// A letter of the input, as long as it can be spelled.
const LETTER: &str = r"\u0078";

/// The request of a case, if it is one.
pub fn request_of(alloc: Global, case: &str) -> Result<Option<HttpRequest>, AllocError> {
    match case {
        "usual" => Ok(Some(creation(alloc, USUAL.as_bytes().to_vec(alloc)?)?)),
        "longest" => Ok(Some(creation(alloc, longest(alloc)?)?)),
        "members" => Ok(Some(creation(alloc, members(alloc)?)?)),
        "pairs" => Ok(Some(list(alloc, pairs(alloc)?)?)),
        _ => Ok(None),
    }
}

/// A creation with this body.
fn creation(alloc: Global, body: Vec<u8>) -> Result<HttpRequest, AllocError> {
    let mut moments = Items::new(alloc);
    moments.push(Blob::from_vec(b"1767225600".to_vec(alloc)?))?;
    Ok(HttpRequest {
        method: Blob::from_vec(b"POST".to_vec(alloc)?),
        target: Blob::from_vec(b"/schedules/once".to_vec(alloc)?),
        moments,
        body: Blob::from_vec(body),
    })
}

/// A list of schedules with this target.
fn list(alloc: Global, target: Vec<u8>) -> Result<HttpRequest, AllocError> {
    Ok(HttpRequest {
        method: Blob::from_vec(b"GET".to_vec(alloc)?),
        target: Blob::from_vec(target),
        moments: Items::new(alloc),
        body: Blob::from_vec(Vec::new(alloc)),
    })
}

/// A body of members that no table has, each before the one that stands before it in the order of their bytes.
fn members(alloc: Global) -> Result<Vec<u8>, AllocError> {
    let mut body = b"{\"Zed\":0".to_vec(alloc)?;
    for number in 0..26_000_u32 {
        body.extend_from_slice(b",\"")?;
        body.extend_from_slice(&descending(number))?;
        body.extend_from_slice(b"\":0")?;
    }
    body.push(b'}')?;
    Ok(body)
}

/// Five digits, the less the greater the number.
fn descending(number: u32) -> [u8; 5] {
    let left = 99_999_u32.saturating_sub(number);
    [
        digit(left / 10_000),
        digit(left / 1_000),
        digit(left / 100),
        digit(left / 10),
        digit(left),
    ]
}

/// The last digit of a number.
fn digit(number: u32) -> u8 {
    b'0' + (number % 10) as u8
}

/// A target whose query has as many pairs as it can.
fn pairs(alloc: Global) -> Result<Vec<u8>, AllocError> {
    let mut target = b"/schedules?MaxResults=1".to_vec(alloc)?;
    for _ in 0..LONGEST_QUERY / 2 {
        target.extend_from_slice(b"&a")?;
    }
    Ok(target)
}

/// A body whose input fills it, each of its letters escaped; spaces stand behind it.
fn longest(alloc: Global) -> Result<Vec<u8>, AllocError> {
    let mut body = FRONT.as_bytes().to_vec(alloc)?;
    let letters = LONGEST_BODY.saturating_sub(FRONT.len() + BACK.len()) / LETTER.len();
    for _ in 0..letters {
        body.extend_from_slice(LETTER.as_bytes())?;
    }
    body.extend_from_slice(BACK.as_bytes())?;
    for _ in body.len()..LONGEST_BODY {
        body.push(b' ')?;
    }
    Ok(body)
}
