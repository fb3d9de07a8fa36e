ghost use Rattle.std.specs.Prelude.{◌≡◌, ◌≤◌, IfOk};

use crate::text;
use plain_words::{LAST_MOMENT, TryCopy};
use std::alloc::{AllocError, Global};
use std::process::Abort;
use std::test::Fail;
use target_link::{Address, BeginFacts, LoopHost, Spot, request_of};

const ARN: &str = "arn:aws:scheduler:local:000000000000:schedule/default/s";

/// The first attempt of the occurrence at 1000 of incarnation 1.
fn first(alloc: Global, arn: &str, input: Option<&str>) -> Result<BeginFacts, AllocError>
    ensures { IfOk result (λ facts. facts.instant ≡ 1000) }
{
    let input = match input {
        Some(input) => Some(text(alloc, input)?),
        None => None,
    };
    Ok(BeginFacts {
        arn: text(alloc, arn)?,
        inc: 1,
        instant: 1000,
        number: 1,
        spot: Spot {
            address: Address {
                host: LoopHost::V4,
                port: 9000,
            },
            path: text(alloc, "/hook")?,
        },
        input,
    })
}

/// The last attempt that has a number, of the last occurrence of the last incarnation.
fn last(alloc: Global) -> Result<BeginFacts, AllocError>
    ensures { IfOk result (λ facts. facts.instant ≡ LAST_MOMENT) }
{
    Ok(BeginFacts {
        arn: text(alloc, "a")?,
        inc: 4294967295,
        instant: LAST_MOMENT,
        number: 65535,
        spot: Spot {
            address: Address {
                host: LoopHost::V6,
                port: 65535,
            },
            path: text(alloc, "/a?x=1")?,
        },
        input: Some(text(alloc, "{\"n\": \"\u{e9}\"}")?),
    })
}

/// What stands in the request of an attempt.
#[derive(Clone, Copy)]
struct Wanted<'a> {
    path: &'a str,
    host: &'a str,
    length: &'a str,
    id: &'a str,
    attempt: &'a str,
    arn: &'a str,
    time: &'a str,
    body: &'a str,
}

/// The whole request.
fn request_text(alloc: Global, wanted: &Wanted<'_>) -> Result<String, AllocError> {
    let Wanted {
        path,
        host,
        length,
        id,
        attempt,
        arn,
        time,
        body,
    } = wanted;
    format!(in alloc;
        "POST {path} HTTP/1.1\r\nHost: {host}\r\nContent-Type: application/json\r\nContent-Length: {length}\r\nX-Execution-Id: {id}\r\nX-Attempt: {attempt}\r\nX-Schedule-Arn: {arn}\r\nX-Scheduled-Time: {time}\r\nConnection: close\r\n\r\n{body}"
    )
}

/// The request of the attempt is the wanted one.
fn check(
    rt: &impl Abort,
    alloc: Global,
    facts: &BeginFacts,
    wanted: &Wanted<'_>,
) -> Result<(), Fail>
    requires { facts.now.instant ≤ LAST_MOMENT }
{
    let request = request_of(alloc, facts)?;
    let wanted = request_text(alloc, wanted)?;
    assert_eq!(rt; str::from_utf8(&request)?, wanted.as_str());
    Ok(())
}

#[test]
fn without_input(rt: HostRuntime) -> Result<(), Fail> {
    let facts = first(rt.alloc(), ARN, None)?;
    assert!(rt; facts.copy()? == facts);
    let wanted = Wanted {
        path: "/hook",
        host: "127.0.0.1:9000",
        length: "0",
        id: "0000000100000000000003e8",
        attempt: "1",
        arn: "arn:aws:scheduler:local:000000000000:schedule/default/s",
        time: "1970-01-01T00:16:40Z",
        body: "",
    };
    check(&rt, rt.alloc(), &facts, &wanted)
}

#[test]
fn largest_numbers(rt: HostRuntime) -> Result<(), Fail> {
    let facts = last(rt.alloc())?;
    let wanted = Wanted {
        path: "/a?x=1",
        host: "[::1]:65535",
        length: "11",
        id: "ffffffff00000001b09e18ff",
        attempt: "65535",
        arn: "a",
        time: "2199-12-31T23:59:59Z",
        body: "{\"n\": \"\u{e9}\"}",
    };
    check(&rt, rt.alloc(), &facts, &wanted)
}

#[test]
fn keywords(rt: HostRuntime) -> Result<(), Fail> {
    let table = [
        (ARN, "", "0\r\n", "\r\n\r\n"),
        (ARN, "<aws.scheduler.attempt-number>", "1\r\n", "\r\n\r\n1"),
        (
            "A",
            "<aws.scheduler.schedule-arn><aws.scheduler.scheduled-time><aws.scheduler.execution-id><aws.scheduler.attempt-number>, <aws.scheduler.attempt-number><aws.scheduler.execution-id><aws.scheduler.scheduled-time><aws.scheduler.schedule-arn>",
            "94\r\n",
            "\r\n\r\nA1970-01-01T00:16:40Z0000000100000000000003e81, 10000000100000000000003e81970-01-01T00:16:40ZA",
        ),
        // What is put in makes a keyword with what follows, or is one, and is not read again.
        (
            "<aws.scheduler.",
            "<aws.scheduler.schedule-arn>attempt-number>",
            "30\r\n",
            "\r\n\r\n<aws.scheduler.attempt-number>",
        ),
        (
            "<aws.scheduler.attempt-number>",
            "<aws.scheduler.schedule-arn>",
            "30\r\n",
            "\r\n\r\n<aws.scheduler.attempt-number>",
        ),
        (
            ARN,
            "<aws.scheduler.<aws.scheduler.attempt-number>attempt-number>",
            "31\r\n",
            "\r\n\r\n<aws.scheduler.1attempt-number>",
        ),
        // Neither a keyword that is cut nor one in other letters is one.
        (
            ARN,
            "<aws.scheduler.attempt-number",
            "29\r\n",
            "\r\n\r\n<aws.scheduler.attempt-number",
        ),
        (
            ARN,
            "<AWS.scheduler.attempt-number>",
            "30\r\n",
            "\r\n\r\n<AWS.scheduler.attempt-number>",
        ),
        (
            ARN,
            "<aws.scheduler.other>",
            "21\r\n",
            "\r\n\r\n<aws.scheduler.other>",
        ),
    ];
    for (arn, input, length, end) in table {
        let facts = first(rt.alloc(), arn, Some(input))?;
        let request = request_of(rt.alloc(), &facts)?;
        let request = str::from_utf8(&request)?;
        assert!(rt; request.ends_with(end), "{request}");
        let line = format!(in rt.alloc(); "\r\nContent-Length: {length}")?;
        assert!(rt; request.contains(line.as_str()), "{request}");
    }
    Ok(())
}

#[test]
fn longest_input(rt: HostRuntime) -> Result<(), Fail> {
    let mut input = String::new(rt.alloc());
    for _ in 0..65506 {
        input.push_str("x")?;
    }
    input.push_str("<aws.scheduler.attempt-number>")?;
    assert_eq!(rt; input.len(), 65536);
    let facts = first(rt.alloc(), ARN, Some(input.as_str()))?;
    let request = request_of(rt.alloc(), &facts)?;
    let request = str::from_utf8(&request)?;
    assert!(rt; request.contains("\r\nContent-Length: 65507\r\n"));
    assert!(rt; request.ends_with("xxx1"));
    Ok(())
}

#[test]
fn times(rt: HostRuntime) -> Result<(), Fail> {
    let table = [
        (0, "1970-01-01T00:00:00Z"),
        (951782399, "2000-02-28T23:59:59Z"),
        (951782400, "2000-02-29T00:00:00Z"),
        (1709210096, "2024-02-29T12:34:56Z"),
        (4107542399, "2100-02-28T23:59:59Z"),
        (4107542400, "2100-03-01T00:00:00Z"),
        (7258118399, "2199-12-31T23:59:59Z"),
    ];
    let mut facts = first(rt.alloc(), ARN, None)?;
    for (instant, wanted) in table {
        assert!(rt; instant <= LAST_MOMENT);
        facts.instant = instant;
        let request = request_of(rt.alloc(), &facts)?;
        let line = format!(in rt.alloc(); "\r\nX-Scheduled-Time: {wanted}\r\n")?;
        assert!(rt;
            str::from_utf8(&request)?.contains(line.as_str()),
            "at {instant}"
        );
    }
    Ok(())
}
