use plain_words::Verdict;
use std::alloc::{AllocError, Global};
use std::test::Fail;
use target_link::verdict_of;

#[test]
fn statuses(rt: HostRuntime) -> Result<(), Fail> {
    let table: [(&[u8], Verdict, u16); 26] = [
        (b"HTTP/1.1 200 OK\r\n\r\n", Verdict::Done, 200),
        (
            b"HTTP/1.1 200 OK\r\nContent-Length: 2\r\n\r\nok",
            Verdict::Done,
            200,
        ),
        (b"HTTP/1.0 204\r\n\r\n", Verdict::Done, 204),
        (b"HTTP/1.1 299 \r\n\r\n", Verdict::Done, 299),
        (
            b"HTTP/1.1 100 Continue\r\n\r\nHTTP/1.1 200 OK\r\n\r\n",
            Verdict::Retry,
            100,
        ),
        (b"HTTP/1.1 199 \r\n\r\n", Verdict::Retry, 199),
        (b"HTTP/1.1 408 Request Timeout\r\n\r\n", Verdict::Retry, 408),
        (
            b"HTTP/1.1 429 Too Many Requests\r\n\r\n",
            Verdict::Retry,
            429,
        ),
        (
            b"HTTP/1.1 500 Internal Server Error\r\n\r\n",
            Verdict::Retry,
            500,
        ),
        (b"HTTP/1.1 503 \r\n\r\n", Verdict::Retry, 503),
        (b"HTTP/1.1 599 \r\n\r\n", Verdict::Retry, 599),
        (b"HTTP/1.1 300 \r\n\r\n", Verdict::Final, 300),
        (
            b"HTTP/1.1 301 Moved Permanently\r\n\r\n",
            Verdict::Final,
            301,
        ),
        (b"HTTP/1.1 400 \r\n\r\n", Verdict::Final, 400),
        (b"HTTP/1.1 404 Not Found\r\n\r\n", Verdict::Final, 404),
        (b"HTTP/1.1 407 \r\n\r\n", Verdict::Final, 407),
        (b"HTTP/1.1 409 \r\n\r\n", Verdict::Final, 409),
        (b"HTTP/1.1 428 \r\n\r\n", Verdict::Final, 428),
        (b"HTTP/1.1 430 \r\n\r\n", Verdict::Final, 430),
        (b"HTTP/1.1 499 \r\n\r\n", Verdict::Final, 499),
        (b"HTTP/1.1 600 \r\n\r\n", Verdict::Final, 600),
        (b"HTTP/1.1 999 \r\n\r\n", Verdict::Final, 999),
        (b"HTTP/1.1 099 \r\n\r\n", Verdict::Retry, 0),
        (b"HTTP/2.0 200 OK\r\n\r\n", Verdict::Retry, 0),
        (b"<html>", Verdict::Retry, 0),
        (b"", Verdict::Retry, 0),
    ];
    for (reply, verdict, status) in table {
        assert_eq!(rt; verdict_of(reply), (verdict, status), "at {reply:?}");
    }
    Ok(())
}

#[test]
fn prefixes(rt: HostRuntime) {
    let whole = b"HTTP/1.1 200 OK\r\n\r\n";
    assert_eq!(rt; whole.len(), 19);
    for length in 0..19 {
        assert_eq!(rt;
            verdict_of(&whole[..length]),
            (Verdict::Retry, 0),
            "at {length}"
        );
    }
}

fn with_headers(alloc: Global, count: usize) -> Result<Vec<u8>, AllocError> {
    let mut reply = Vec::from_slice(alloc, b"HTTP/1.1 200 OK\r\n")?;
    for _ in 0..count {
        reply.extend_from_slice(b"Name: value\r\n")?;
    }
    reply.extend_from_slice(b"\r\n")?;
    Ok(reply)
}

#[test]
fn headers(rt: HostRuntime) -> Result<(), Fail> {
    let most = with_headers(rt.alloc(), 64)?;
    assert_eq!(rt; verdict_of(&most), (Verdict::Done, 200));
    let more = with_headers(rt.alloc(), 65)?;
    assert_eq!(rt; verdict_of(&more), (Verdict::Retry, 0));
    Ok(())
}
