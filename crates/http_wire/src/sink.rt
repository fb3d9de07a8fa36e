//! Where responses go.
ghost use Rattle.std.specs.Prelude.{◌≡◌, ℕ, ◌+◌, ◌-◌, ◌^◌, ◌<◌, ◌≤◌, min, List, [], length, take, Option, Some, None, Contains, IfOk, IsErr, OnOk, OnErr};
ghost use Rattle.http_wire.specs.Devices.{Gets, GetsPart};
ghost use Rattle.http_wire.specs.Memory.{CountsCall};
ghost use Rattle.outside.specs.Faults.{HasCause};

use outside::FailingCalls;
use std::alloc::Global;
use std::io::Write;
use std::marker::Model;

/// A write that failed. Nothing was taken.
#[derive(Clone, Copy, Debug, PartialEq, Eq)]
pub struct SinkFailed;

/// A stream of bytes that responses are written to.
pub trait Sink {
    // how many calls failed so far
    ghost faults: { Self → ℕ };
    // the bytes that were taken so far, where the sink tells them
    ghost got: { Self → Option (List ℕ) };

    /// Takes a front of `bytes`, and returns its length. It is 0 only where `bytes` is empty.
    fn write(&mut self, bytes: &[u8]) -> Result<usize, SinkFailed>
        ensures fits { IfOk result (λ n. n ≤ length bytes.now) }
        ensures moves { IfOk result (λ n. 0 < length bytes.now → 0 < n) }
        ensures takes { IfOk result (λ n. Gets (got self.old) (take n bytes.now) (got self.new)) }
        ensures cause { HasCause (faults self.old) (faults self.new) result }
        ensures kept { OnErr result (got self.new ≡ got self.old) };
}

/// Writes all of `bytes`. After a fault a front of them was taken.
pub fn send_all<K: Sink>(sink: &mut K, bytes: &[u8]) -> Result<(), SinkFailed>
    ensures sent { OnOk result (Gets (K.got sink.old) bytes.now (K.got sink.new)) }
    ensures cut { OnErr result (GetsPart (K.got sink.old) bytes.now (K.got sink.new)) }
    ensures cause { HasCause (K.faults sink.old) (K.faults sink.new) result }
{
    let mut sent = 0;
    'pieces: while sent < bytes.len() {
        match sink.write(&bytes[sent..]) {
            Ok(count) => sent += count,
            Err(failed) => return Err(failed),
        }
    }
    Ok(())
}

/// A sink in memory. It tells its bytes, takes at most `most` of them in one call, and fails at listed calls.
/// A call that finds no memory to grow fails too.
#[derive(Drop)]
pub struct MemSink {
    bytes: Vec<u8>,
    most: usize,
    failing: FailingCalls,
}

impl Model for MemSink {
    ghost use Rattle.std.specs.Prelude.{◌<◌};
    ghost use Rattle.http_wire.specs.Memory.{MemoryBytes};

    ghost Value = { MemoryBytes };

    ghost view = { λ s. record { bytes = s.bytes.items; most = s.most; failing = s.failing } };

    ghost invariant = { λ s. 0 < s.most };
}

impl MemSink {
    /// An empty sink, of which one call takes at most `most` bytes, and whose calls with the numbers in `failing` fail,
    /// counted from 1.
    pub fn new(alloc: Global, most: usize, failing: Vec<u64>) -> Self
        requires { 0 < most }
        ensures { result ≡ record {
          bytes = [];
          most = most;
          failing = record { numbers = failing.items; calls = 0; faults = 0 };
        } }
    {
        MemSink {
            bytes: Vec::new(alloc),
            most,
            failing: FailingCalls::new(failing),
        }
    }

    /// The bytes that were taken so far.
    pub fn as_bytes(&self) -> &[u8]
        ensures { result.now ≡ self.now.bytes }
    {
        &self.bytes
    }
}

impl Sink for MemSink {
    ghost faults = { λ s. s.failing.faults };

    ghost got = { λ s. Some s.bytes };

    /// Fails where the number of the call is listed, and elsewhere for want of memory alone. Else it takes all bytes, or
    /// the most that one call takes.
    fn write(&mut self, bytes: &[u8]) -> Result<usize, SinkFailed>
        ensures fits { IfOk result (λ n. n ≤ length bytes.now) }
        ensures moves { IfOk result (λ n. 0 < length bytes.now → 0 < n) }
        ensures takes { IfOk result (λ n. Gets (Some self.old.bytes) (take n bytes.now) (Some self.new.bytes)) }
        ensures cause { HasCause self.old.failing.faults self.new.failing.faults result }
        ensures kept { OnErr result (Some self.new.bytes ≡ Some self.old.bytes) }
        ensures counted { CountsCall self.old.failing self.new.failing result }
        ensures listed { Contains self.old.failing.numbers self.new.failing.calls → IsErr result }
        ensures moved { IfOk result (λ n. n ≡ min (length bytes.now) self.old.most) }
        ensures most { self.new.most ≡ self.old.most }
    {
        if self.failing.fails_next() {
            return Err(SinkFailed);
        }
        let count = bytes.len().min(self.most);
        match self.bytes.extend_from_slice(&bytes[..count]) {
            Ok(()) => Ok(count),
            Err(_) => {
                self.failing.count_fault();
                Err(SinkFailed)
            }
        }
    }
}

/// A sink over any writer. It tells nothing of its bytes.
#[derive(Drop)]
pub struct RealSink<W: Write + Drop> {
    writer: W,
    faults: u64,
}

impl<W: Write + Drop> Model for RealSink<W> {
    ghost use Rattle.std.specs.Prelude.{ℕ};

    // how many calls failed
    ghost Value = { ℕ };

    ghost view = { λ s. s.faults };
}

impl<W: Write + Drop> RealSink<W> {
    /// A sink over this writer.
    pub fn new(writer: W) -> Self
        ensures { result ≡ 0 }
    {
        RealSink { writer, faults: 0 }
    }

    /// Counts a fault, which stays at the greatest u64.
    fn fail(&mut self) -> SinkFailed
        ensures count { self.new ≡ min (self.old + 1) (2 ^ 64 - 1) }
        ensures later { self.old ≤ self.new }
    {
        self.faults = self.faults.saturating_add(1);
        SinkFailed
    }
}

impl<W: Write + Drop> Sink for RealSink<W> {
    ghost faults = { λ s. s };

    ghost got = { λ _. None };

    // A writer that takes nothing of a piece would be asked for ever, so that counts as a failure.
    fn write(&mut self, bytes: &[u8]) -> Result<usize, SinkFailed> {
        match self.writer.write(bytes) {
            Ok(0) if !bytes.is_empty() => Err(self.fail()),
            Ok(count) => Ok(count),
            Err(_) => Err(self.fail()),
        }
    }
}
