//! What is framed as a request, over devices in memory that move few bytes in a call and fail.
use crate::texts::answer_text;
use http_wire::{MemSink, MemSource};
use policy_rules::ListPicker;
use sched_top::run_words;
use std::alloc::{AllocError, Global};
use std::process::Abort;
use std::test::Fail;
use target_link::ScriptLink;
use zone_occ::MapZones;

/// A request for nothing that there is.
const NOWHERE: &[u8] = b"GET / HTTP/1.1\r\n\r\n";

/// The answer to it, over the Boot alone.
const NO_ROUTE: &str = "404 1 {\"Message\":\"rule 3: /\"}";

/// What a run gave: its status, the bytes that it wrote, and how many bytes of the input are left.
#[derive(Drop)]
struct Outcome {
    status: u8,
    output: Vec<u8>,
    left: usize,
}

/// Runs `batch`; each call of a device moves at most `most` bytes, and the listed calls fail.
fn run(
    alloc: Global,
    input: &[u8],
    most: usize,
    reads: &[u64],
    writes: &[u64],
) -> Result<Outcome, AllocError> {
    let most = most.max(1);
    let mut source = MemSource::new(input.to_vec(alloc)?, most, reads.to_vec(alloc)?);
    let mut sink = MemSink::new(alloc, most, writes.to_vec(alloc)?);
    let mut link = ScriptLink::new(alloc, Vec::new(alloc));
    let mut zones = MapZones::new(Vec::new(alloc), Vec::new(alloc));
    let mut picker = ListPicker::new(Vec::new(alloc));
    let status = run_words(
        alloc,
        &["batch"],
        &mut source,
        &mut sink,
        &mut zones,
        &mut picker,
        &mut link,
    );
    Ok(Outcome {
        status,
        output: sink.as_bytes().to_vec(alloc)?,
        left: source.len(),
    })
}

/// These pieces, one behind the other.
fn joined(alloc: Global, pieces: &[&[u8]]) -> Result<Vec<u8>, AllocError> {
    let mut all = Vec::new(alloc);
    for piece in pieces {
        all.extend_from_slice(piece)?;
    }
    Ok(all)
}

/// A piece so many times.
fn repeated(alloc: Global, piece: &[u8], times: usize) -> Result<Vec<u8>, AllocError> {
    let mut all = Vec::new(alloc);
    for _ in 0..times {
        all.extend_from_slice(piece)?;
    }
    Ok(all)
}

/// The input is one framed request, which is answered so.
fn check_framed(
    rt: &impl Abort,
    alloc: Global,
    input: &[u8],
    line: &str,
) -> Result<(), AllocError> {
    let answer = answer_text(alloc, line)?;
    for most in [1, 7, 1_000_000] {
        let one = run(alloc, input, most, &[], &[])?;
        assert_eq!(rt; one.status, 0);
        assert_eq!(rt; one.output.as_slice(), answer.as_bytes());
        assert_eq!(rt; one.left, 0);
        let twice = run(alloc, &joined(alloc, &[input, input])?, most, &[], &[])?;
        assert_eq!(rt; twice.status, 0);
        assert_eq!(rt;
            twice.output.as_slice(),
            joined(alloc, &[answer.as_bytes(), answer.as_bytes()])?.as_slice()
        );
    }
    Ok(())
}

/// The input is no request, first and second in a stream; so much of what follows is left.
fn check_unframed(
    rt: &impl Abort,
    alloc: Global,
    input: &[u8],
    left: usize,
) -> Result<(), AllocError> {
    let no_first = answer_text(alloc, "400 1 {\"Message\":\"rule 1: request 1\"}")?;
    let no_second = answer_text(alloc, "400 1 {\"Message\":\"rule 1: request 2\"}")?;
    let answer = answer_text(alloc, NO_ROUTE)?;
    for most in [1, 7, 1_000_000] {
        let first = run(alloc, input, most, &[], &[])?;
        assert_eq!(rt; first.status, 8);
        assert_eq!(rt; first.output.as_slice(), no_first.as_bytes());
        assert_eq!(rt; first.left, left);
        let stream = joined(alloc, &[NOWHERE, input])?;
        let second = run(alloc, &stream, most, &[], &[])?;
        assert_eq!(rt; second.status, 8);
        assert_eq!(rt;
            second.output.as_slice(),
            joined(alloc, &[answer.as_bytes(), no_second.as_bytes()])?.as_slice()
        );
        assert_eq!(rt; second.left, left);
    }
    Ok(())
}

#[test]
fn frames_requests(rt: HostRuntime) -> Result<(), Fail> {
    let alloc = rt.alloc();
    let inputs: [(&[u8], &str); 9] = [
        (NOWHERE, NO_ROUTE),
        (b"GET / HTTP/1.0\n\n", NO_ROUTE),
        (b"\r\n\r\nGET / HTTP/1.1\r\n\r\n", NO_ROUTE),
        (
            b"POST /sweep HTTP/1.1\r\nX-Moment: 5\r\nx-moment: 6\r\nHost: a\r\n\r\n",
            "400 1 {\"Message\":\"rule 2: X-Moment\"}",
        ),
        (
            b"PUT /schedules/a?b=c HTTP/1.1\r\nContent-Length: 2\r\n\r\n{}",
            "400 1 {\"Message\":\"rule 7: ScheduleExpression\"}",
        ),
        (
            b"PUT /a HTTP/1.1\r\ncontent-LENGTH:\t000005 \r\nExpect: 100-continue\r\n\r\n\r\n\r\n\r",
            "404 1 {\"Message\":\"rule 3: /a\"}",
        ),
        (
            b"anything * HTTP/1.1\r\nContent-Length: 0\r\n\r\n",
            "404 1 {\"Message\":\"rule 3: *\"}",
        ),
        (
            b"POST /\xc3\xa9 HTTP/1.1\r\nContent-Length: 000000\r\n\r\n",
            "404 1 {\"Message\":\"rule 3: /\u{e9}\"}",
        ),
        (
            b"POST /schedules/once HTTP/1.1\r\nX-Moment: 900\r\nContent-Length: 1\r\n\r\n\0",
            "400 1 {\"Message\":\"rule 5: body\"}",
        ),
    ];
    for (input, line) in inputs {
        check_framed(&rt, alloc, input, line)?;
    }
    Ok(())
}

/// A head of 16,384 bytes, 64 headers, and a body of 262,144 bytes.
#[test]
fn frames_the_largest_requests(rt: HostRuntime) -> Result<(), Fail> {
    let alloc = rt.alloc();
    let filler = repeated(alloc, b"x", 16_361)?;
    let long = joined(alloc, &[b"GET / HTTP/1.1\r\nA: ", &filler, b"\r\n\r\n"])?;
    assert_eq!(rt; long.len(), 16_384);
    check_framed(&rt, alloc, &long, NO_ROUTE)?;
    let headers = repeated(alloc, b"A: b\r\n", 64)?;
    let many = joined(alloc, &[b"GET / HTTP/1.1\r\n", &headers, b"\r\n"])?;
    check_framed(&rt, alloc, &many, NO_ROUTE)?;
    let body = repeated(alloc, b"y", 262_144)?;
    let big = joined(
        alloc,
        &[b"GET / HTTP/1.1\r\nContent-Length: 262144\r\n\r\n", &body],
    )?;
    check_framed(&rt, alloc, &big, NO_ROUTE)?;
    Ok(())
}

#[test]
fn refuses_what_is_no_request(rt: HostRuntime) -> Result<(), Fail> {
    let alloc = rt.alloc();
    let inputs: [(&[u8], usize); 16] = [
        (b"\r\n", 0),
        (b"\n", 0),
        (b"GET / HTTP/1.1\r\nHost: a\r\n", 0),
        (b"G", 0),
        (b"GET /schedules HTTP/1.1\r\nContent-Length: 5\r\n\r\nab", 0),
        (b"GET / HTTP/1.1\r\nContent-Length: 0000005\r\n\r\nabcde", 5),
        (b"GET / HTTP/1.1\r\nContent-Length: 262145\r\n\r\nab", 2),
        (b"GET / HTTP/1.1\r\nContent-Length: +5\r\n\r\nabcde", 5),
        (b"GET / HTTP/1.1\r\nContent-Length: 5a\r\n\r\nabcde", 5),
        (b"GET / HTTP/1.1\r\nContent-Length: \r\n\r\n", 0),
        (
            b"GET / HTTP/1.1\r\nContent-Length: 1\r\ncontent-length: 1\r\n\r\na",
            1,
        ),
        (
            b"GET / HTTP/1.1\r\nTransfer-Encoding: chunked\r\n\r\n0\r\n\r\n",
            5,
        ),
        (
            b"GET / HTTP/1.1\r\nContent-Length: 1\r\ntransfer-encoding: \r\n\r\na",
            1,
        ),
        (b"GET / HTTP/2.0\r\nHost: a\r\n\r\n", 11),
        (b"GET /\xff HTTP/1.1\r\n\r\n", 2),
        (b"GET  / HTTP/1.1\r\n\r\nGET / HTTP/1.1\r\n\r\n", 20),
    ];
    for (input, left) in inputs {
        check_unframed(&rt, alloc, input, left)?;
    }
    // a head of 16,385 bytes, and 65 headers
    let filler = repeated(alloc, b"x", 16_362)?;
    let long = joined(alloc, &[b"GET / HTTP/1.1\r\nA: ", &filler, b"\r\n\r\n"])?;
    assert_eq!(rt; long.len(), 16_385);
    check_unframed(&rt, alloc, &long, 1)?;
    let headers = repeated(alloc, b"A: b\r\n", 65)?;
    let many = joined(alloc, &[b"GET / HTTP/1.1\r\n", &headers, b"\r\n"])?;
    check_unframed(&rt, alloc, &many, 2)?;
    Ok(())
}

#[test]
fn ends_at_failing_calls(rt: HostRuntime) -> Result<(), Fail> {
    let alloc = rt.alloc();
    // the source fails at each call before its end: 46 bytes of a head, the body, and the call that finds it cut
    let cut = b"GET /schedules HTTP/1.1\r\nContent-Length: 5\r\n\r\nab";
    for call in 1..49 {
        let one = run(alloc, cut, 1_000_000, &[call], &[])?;
        assert_eq!(rt; one.status, 3);
        assert_eq!(rt; one.output.len(), 0);
    }
    // the sink fails at each byte of two answers, and nothing is read behind the request that it fails at
    let stream = joined(alloc, &[NOWHERE, NOWHERE])?;
    let answer = answer_text(alloc, NO_ROUTE)?;
    let answers = joined(alloc, &[answer.as_bytes(), answer.as_bytes()])?;
    for taken in 0..answers.len() {
        let one = run(alloc, &stream, 1, &[], &[taken as u64 + 1])?;
        assert_eq!(rt; one.status, 4);
        assert_eq!(rt; one.output.as_slice(), &answers[..taken]);
        assert_eq!(rt; one.left, if taken < answer.len() { 18 } else { 0 });
    }
    // so it does while the refusal of what is no request is written
    let one = run(alloc, b"\r\n", 1, &[], &[5])?;
    assert_eq!(rt; one.status, 4);
    assert_eq!(rt; one.output.as_slice(), b"HTTP".as_slice());
    Ok(())
}

#[test]
fn takes_batch_alone(rt: HostRuntime) -> Result<(), Fail> {
    let alloc = rt.alloc();
    let faulty: [&[&str]; 5] = [
        &[],
        &["serve"],
        &["Batch"],
        &["batch", "batch"],
        &["batch", ""],
    ];
    for words in faulty {
        let mut source = MemSource::new(NOWHERE.to_vec(alloc)?, 9, Vec::new(alloc));
        let mut sink = MemSink::new(alloc, 9, Vec::new(alloc));
        let mut link = ScriptLink::new(alloc, Vec::new(alloc));
        let mut zones = MapZones::new(Vec::new(alloc), Vec::new(alloc));
        let mut picker = ListPicker::new(Vec::new(alloc));
        let status = run_words(
            alloc,
            words,
            &mut source,
            &mut sink,
            &mut zones,
            &mut picker,
            &mut link,
        );
        assert_eq!(rt; status, 2);
        assert_eq!(rt; source.len(), 18);
        assert_eq!(rt; sink.as_bytes().len(), 0);
    }
    let empty = run(alloc, b"", 9, &[], &[])?;
    assert_eq!(rt; empty.status, 0);
    assert_eq!(rt; empty.output.len(), 0);
    Ok(())
}
