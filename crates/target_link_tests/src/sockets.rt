use plain_words::Verdict;
use std::alloc::{Alloc, Global};
use std::io::{self, Read, Write};
use std::net::{Net, Shutdown, TcpListener, TcpStream};
use std::test::Fail;
use std::thread::{Threads, join};
use target_link::{Address, LONGEST_REPLY, Link, LoopHost, TcpLink, verdict_of};

const REQUEST: &[u8] =
    b"POST /hook HTTP/1.1\r\nHost: 127.0.0.1:9000\r\nConnection: close\r\n\r\nbody";

/// The bytes that there is room for: more than a link reads.
const ROOM: usize = 70_000;

/// Takes one connection, reads a request and answers it. A reply that a link does not read to its end leaves the
/// connection open.
fn serve(listener: &TcpListener, request: &mut [u8], reply: &[u8]) -> io::Result<TcpStream> {
    let (mut stream, _) = listener.accept()?;
    stream.read_exact(request)?;
    stream.write_all(reply)?;
    if reply.len() < LONGEST_REPLY {
        stream.shutdown(Shutdown::Write)?;
    }
    Ok(stream)
}

/// Takes one connection, writes a front of a reply, and lets the connection go with a part of its request unread,
/// which resets it.
fn break_off(listener: &TcpListener, front: &[u8]) -> io::Result<()> {
    let (mut stream, _) = listener.accept()?;
    stream.read_exact(&mut [0u8; 1])?;
    stream.write_all(front)
}

/// Sends the request over a link of its own; the answer is how many bytes came back, and how many requests were lost.
fn send_once<R: Net + Drop>(rt: R, to: Address, reply: &mut [u8]) -> (Option<usize>, u64) {
    let mut link = TcpLink::new(rt);
    match link.ready(1, REQUEST.len()) {
        Ok(()) => {
            let came = link.send(to, REQUEST, reply).ok();
            (came, link.losses())
        }
        Err(_) => (None, 0),
    }
}

/// Where a listener listens.
fn address_of(host: LoopHost, listener: &TcpListener) -> io::Result<Address> {
    Ok(Address {
        host,
        port: listener.local_addr()?.port(),
    })
}

/// What a listener got, and the reply that the link brought back.
#[derive(Drop)]
struct Exchanged {
    request: Vec<u8>,
    reply: Option<Vec<u8>>,
}

/// Sends the request to a listener that answers `given`.
fn serve_and_send<R: Net + Threads + Alloc<A = Global> + Clone + Drop>(
    rt: &R,
    host: LoopHost,
    listener: &TcpListener,
    given: &[u8],
) -> Result<Exchanged, Fail> {
    let to = address_of(host, listener)?;
    let client = rt.clone()?;
    let mut request = vec![in rt.alloc(); 0; REQUEST.len()]?;
    let mut reply = vec![in rt.alloc(); 0; ROOM]?;
    let (_stream, (came, _)) = join(
        rt,
        || serve(listener, &mut request, given),
        || send_once(client, to, &mut reply),
    );
    let reply = match came {
        Some(length) => {
            reply.truncate(length);
            Some(reply)
        }
        None => None,
    };
    Ok(Exchanged { request, reply })
}

#[test]
fn replies(rt: HostRuntime) -> Result<(), Fail> {
    let long = vec![in rt.alloc(); b'x'; ROOM]?;
    let most = vec![in rt.alloc(); b'x'; LONGEST_REPLY]?;
    let table: [(&[u8], usize, Verdict, u16); 5] = [
        (b"HTTP/1.1 200 OK\r\n\r\nfine", 23, Verdict::Done, 200),
        (b"HTTP/1.1 200 OK\r\n", 17, Verdict::Retry, 0),
        (b"", 0, Verdict::Retry, 0),
        (long.as_slice(), 65536, Verdict::Retry, 0),
        (most.as_slice(), 65536, Verdict::Retry, 0),
    ];
    for (given, length, verdict, status) in table {
        let listener = TcpListener::bind(&rt, "127.0.0.1:0")?;
        let done = serve_and_send(&rt, LoopHost::Name, &listener, given)?;
        assert_eq!(rt; done.request.as_slice(), REQUEST);
        let reply = done.reply.ok_or("lost")?;
        assert_eq!(rt; reply.len(), length);
        assert!(rt; given.starts_with(reply.as_slice()));
        assert_eq!(rt; verdict_of(&reply), (verdict, status));
    }
    Ok(())
}

#[test]
fn version_4(rt: HostRuntime) -> Result<(), Fail> {
    let listener = TcpListener::bind(&rt, "127.0.0.1:0")?;
    let done = serve_and_send(&rt, LoopHost::V4, &listener, b"reply")?;
    assert_eq!(rt; done.request.as_slice(), REQUEST);
    assert_eq!(rt; done.reply.ok_or("lost")?.as_slice(), b"reply".as_slice());
    Ok(())
}

#[test]
fn version_6(rt: HostRuntime) -> Result<(), Fail> {
    // A machine without IPv6 has no such listener.
    if let Ok(listener) = TcpListener::bind(&rt, "[::1]:0") {
        let done = serve_and_send(&rt, LoopHost::V6, &listener, b"reply")?;
        assert_eq!(rt; done.request.as_slice(), REQUEST);
        assert_eq!(rt; done.reply.ok_or("lost")?.as_slice(), b"reply".as_slice());
    }
    Ok(())
}

#[test]
fn refused(rt: HostRuntime) -> Result<(), Fail> {
    let listener = TcpListener::bind(&rt, "127.0.0.1:0")?;
    let to = address_of(LoopHost::V4, &listener)?;
    drop(listener);
    assert!(rt; send_once(rt.clone()?, to, &mut [0u8; 16]) == (None, 1));
    Ok(())
}

#[test]
fn reset(rt: HostRuntime) -> Result<(), Fail> {
    // The read of the reply fails at its first byte, and behind a whole head.
    let fronts: [&[u8]; 2] = [b"", b"HTTP/1.1 200 OK\r\n\r\n"];
    for front in fronts {
        let listener = TcpListener::bind(&rt, "127.0.0.1:0")?;
        let to = address_of(LoopHost::V4, &listener)?;
        let client = rt.clone()?;
        let mut reply = [0u8; 64];
        let (_, sent) = join(
            &rt,
            || break_off(&listener, front),
            || send_once(client, to, &mut reply),
        );
        assert!(rt; sent == (None, 1));
    }
    Ok(())
}
