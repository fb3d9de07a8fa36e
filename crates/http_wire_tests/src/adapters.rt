//! Real sources and sinks over a reader and a writer of these tests, which fail in mid-stream.
use http_wire::{
    FrameFault, RealSink, RealSource, SinkFailed, Source, SourceFailed, read_request, send_all,
};
use std::alloc::Global;
use std::io;
use std::io::{ErrorKind, Read, Write};
use std::process::Abort;
use std::test::Fail;

/// A reader that gives a text and then fails.
#[derive(Drop)]
struct Reset {
    text: &'static [u8],
}

impl Read for Reset {
    fn read(&mut self, into: &mut [u8]) -> io::Result<usize> {
        if self.text.is_empty() {
            return Err(ErrorKind::ConnectionReset.into());
        }
        let count = self.text.len().min(into.len());
        into[..count].copy_from_slice(&self.text[..count]);
        self.text = &self.text[count..];
        Ok(count)
    }
}

/// A writer that takes at most `most` bytes in one call, and fails once it took `calls` calls.
#[derive(Drop)]
struct Pipe {
    taken: Vec<u8>,
    most: usize,
    calls: usize,
}

impl Write for Pipe {
    fn write(&mut self, bytes: &[u8]) -> io::Result<usize> {
        if self.calls == 0 {
            return Err(ErrorKind::BrokenPipe.into());
        }
        self.calls -= 1;
        let count = bytes.len().min(self.most);
        match self.taken.extend_from_slice(&bytes[..count]) {
            Ok(()) => Ok(count),
            Err(_) => Err(ErrorKind::OutOfMemory.into()),
        }
    }

    fn flush(&mut self) -> io::Result<()> {
        Ok(())
    }
}

/// What is sent into such a writer ends so, and this front of it was taken.
fn check_sent(
    rt: &impl Abort,
    alloc: Global,
    most: usize,
    calls: usize,
    ends: Result<(), SinkFailed>,
    front: &[u8],
) {
    let mut pipe = Pipe {
        taken: Vec::new(alloc),
        most,
        calls,
    };
    let mut sink = RealSink::new(&mut pipe);
    let sent = send_all(&mut sink, b"abcdefgh");
    assert_eq!(rt; sent, ends);
    assert_eq!(rt; pipe.taken.as_slice(), front);
}

#[test]
fn a_real_source_gives_what_came_before_the_failure(rt: HostRuntime) -> Result<(), Fail> {
    let mut source = RealSource::new(rt.alloc(), Reset { text: b"abc" })?;
    let mut into = [0; 2];
    assert_eq!(rt; source.read(&mut into), Ok(2));
    assert_eq!(rt; into, [b'a', b'b']);
    assert_eq!(rt; source.read(&mut into), Ok(1));
    assert_eq!(rt; into, [b'c', b'b']);
    assert_eq!(rt; source.read(&mut into), Err(SourceFailed));
    assert_eq!(rt; source.read(&mut into), Err(SourceFailed));
    Ok(())
}

#[test]
fn a_request_before_the_failure_is_read(rt: HostRuntime) -> Result<(), Fail> {
    let text = b"GET / HTTP/1.1\r\n\r\nGET";
    let mut source = RealSource::new(rt.alloc(), Reset { text })?;
    let first = read_request(rt.alloc(), &mut source);
    assert!(rt; matches!(first, Ok(Some(_))));
    let second = read_request(rt.alloc(), &mut source);
    assert!(rt; matches!(second, Err(FrameFault::SourceFailed)));
    Ok(())
}

#[test]
fn a_real_sink_takes_a_front_before_the_failure(rt: HostRuntime) {
    check_sent(&rt, rt.alloc(), 3, 9, Ok(()), b"abcdefgh");
    check_sent(&rt, rt.alloc(), 3, 2, Err(SinkFailed), b"abcdef");
    check_sent(&rt, rt.alloc(), 0, 9, Err(SinkFailed), b"");
}
