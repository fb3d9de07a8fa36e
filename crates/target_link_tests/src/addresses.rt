use crate::text;
use plain_words::TryCopy;
use std::test::Fail;
use target_link::{LoopHost, SpotFault, address_of};

#[test]
fn targets(rt: HostRuntime) -> Result<(), Fail> {
    let table: [(&str, LoopHost, u16, &str); 14] = [
        ("http://127.0.0.1:9000/hook", LoopHost::V4, 9000, "/hook"),
        ("http://[::1]:80/a?x=1", LoopHost::V6, 80, "/a?x=1"),
        ("http://localhost", LoopHost::Name, 80, "/"),
        (
            "http://localhost:65535/a/b?",
            LoopHost::Name,
            65535,
            "/a/b?",
        ),
        ("http://127.1/", LoopHost::V4, 80, "/"),
        ("http://localhost/a b", LoopHost::Name, 80, "/a%20b"),
        ("  http://localhost/x \n", LoopHost::Name, 80, "/x"),
        ("http://local\thost/", LoopHost::Name, 80, "/"),
        ("http://@localhost/", LoopHost::Name, 80, "/"),
        ("HTTP://LOCALHOST/A", LoopHost::Name, 80, "/A"),
        ("http://localhost/a/../b", LoopHost::Name, 80, "/b"),
        ("http://127.0.0.1:0/", LoopHost::V4, 0, "/"),
        (
            "http://localhost/\u{e9}?\u{e9}",
            LoopHost::Name,
            80,
            "/%C3%A9?%C3%A9",
        ),
        (
            "http://localhost/a\r\nX-Attempt: 9",
            LoopHost::Name,
            80,
            "/aX-Attempt:%209",
        ),
    ];
    for (arn, host, port, path) in table {
        let spot = address_of(rt.alloc(), &text(rt.alloc(), arn)?)?;
        assert_eq!(rt; spot.address.host, host, "at {arn}");
        assert_eq!(rt; spot.address.port, port, "at {arn}");
        assert_eq!(rt; spot.path.as_str(), path, "at {arn}");
        assert!(rt; spot.copy()? == spot);
    }
    Ok(())
}

#[test]
fn others(rt: HostRuntime) -> Result<(), Fail> {
    let table = [
        "",
        "arn:aws:lambda:us-east-1:123456789012:function:f",
        "https://127.0.0.1/",
        "http://example.com/",
        "http://127.0.0.2/",
        "http://[::2]/",
        "http://user@localhost/",
        "http://:password@localhost/",
        "http://localhost/#",
        "http://localhost/#part",
        "http://local host/",
        "http://localhost:65536/",
        "http://localhost.example.com/",
        "ws://localhost/",
        "/hook",
    ];
    for arn in table {
        let spot = address_of(rt.alloc(), &text(rt.alloc(), arn)?);
        assert_eq!(rt; spot.err(), Some(SpotFault::NotATarget), "at {arn}");
    }
    Ok(())
}
