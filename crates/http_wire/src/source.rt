//! Where requests come from.
ghost use Rattle.std.specs.Prelude.{◌≡◌, ℕ, ◌+◌, ◌-◌, ◌^◌, ◌<◌, ◌≤◌, ◌↔◌, min, List, [], length, take, Option, Some, None, Contains, IfOk, IfSome, IsErr, OnErr};
ghost use Rattle.http_wire.specs.Devices.{Gives};
ghost use Rattle.http_wire.specs.Memory.{CountsCall};
ghost use Rattle.outside.specs.Faults.{HasCause};

use outside::FailingCalls;
use std::alloc::{AllocError, Global};
use std::io::{BufReader, Read};
use std::marker::Model;

/// A read that failed. Nothing was taken.
#[derive(Clone, Copy, Debug, PartialEq, Eq)]
pub struct SourceFailed;

/// A stream of bytes that requests are read from.
pub trait Source {
    // how many calls failed so far
    ghost faults: { Self → ℕ };
    // how many bytes may still come
    ghost supply: { Self → ℕ };
    // the bytes that will come, where the source tells them
    ghost left: { Self → Option (List ℕ) };

    /// Moves the next bytes to the front of `into`, and returns how many. 0 is the end, where `into` is not
    /// empty.
    fn read(&mut self, into: &mut [u8]) -> Result<usize, SourceFailed>
        ensures fits { IfOk result (λ n. n ≤ length into.old) }
        ensures bounded { supply self.old < 2 ^ 64 }
        ensures falls { IfOk result (λ n. supply self.old ≡ supply self.new + n) }
        ensures gives { IfOk result (λ n. Gives (left self.old) (take n into.new) (left self.new)) }
        ensures ends { IfOk result (λ n. n ≡ 0 → 0 < length into.old
            → IfSome (left self.old) (λ bytes. bytes ≡ [])) }
        ensures cause { HasCause (faults self.old) (faults self.new) result }
        ensures kept { OnErr result (left self.new ≡ left self.old) }
        ensures unspent { OnErr result (supply self.new ≡ supply self.old) };
}

/// A source in memory. It tells its bytes, moves at most `most` of them in one call, and fails at listed calls.
#[derive(Drop)]
pub struct MemSource {
    bytes: Vec<u8>,
    position: usize,
    most: usize,
    failing: FailingCalls,
}

impl Model for MemSource {
    ghost use Rattle.std.specs.Prelude.{◌<◌, ◌≤◌, length, drop};
    ghost use Rattle.http_wire.specs.Memory.{MemoryBytes};

    ghost Value = { MemoryBytes };

    ghost view = { λ s. record {
      bytes = drop s.position s.bytes.items;
      most = s.most;
      failing = s.failing;
    } };

    ghost invariant = { λ s. (s.position ≤ length s.bytes.items) × (0 < s.most) };
}

impl MemSource {
    /// A source of these bytes, of which one call moves at most `most`, and whose calls with the numbers in `failing`
    /// fail, counted from 1.
    pub fn new(bytes: Vec<u8>, most: usize, failing: Vec<u64>) -> Self
        requires { 0 < most }
        ensures { result ≡ record {
          bytes = bytes.items;
          most = most;
          failing = record { numbers = failing.items; calls = 0; faults = 0 };
        } }
    {
        MemSource {
            bytes,
            position: 0,
            most,
            failing: FailingCalls::new(failing),
        }
    }

    /// How many bytes are left.
    pub fn len(&self) -> usize
        ensures { result ≡ length self.now.bytes }
    {
        self.bytes.len() - self.position
    }
}

impl Source for MemSource {
    ghost faults = { λ s. s.failing.faults };

    ghost supply = { λ s. length s.bytes };

    ghost left = { λ s. Some s.bytes };

    /// Fails exactly where the number of the call is listed, and else moves as many bytes as are left, as one call
    /// moves, and as `into` has room for.
    fn read(&mut self, into: &mut [u8]) -> Result<usize, SourceFailed>
        ensures fits { IfOk result (λ n. n ≤ length into.old) }
        ensures bounded { length self.old.bytes < 2 ^ 64 }
        ensures falls { IfOk result (λ n. length self.old.bytes ≡ length self.new.bytes + n) }
        ensures gives { IfOk result (λ n. Gives (Some self.old.bytes) (take n into.new) (Some self.new.bytes)) }
        ensures ends { IfOk result (λ n. n ≡ 0 → 0 < length into.old
            → IfSome (Some self.old.bytes) (λ bytes. bytes ≡ [])) }
        ensures cause { HasCause self.old.failing.faults self.new.failing.faults result }
        ensures kept { OnErr result (Some self.new.bytes ≡ Some self.old.bytes) }
        ensures unspent { OnErr result (length self.new.bytes ≡ length self.old.bytes) }
        ensures counted { CountsCall self.old.failing self.new.failing result }
        ensures listed { IsErr result ↔ Contains self.old.failing.numbers self.new.failing.calls }
        ensures moved { IfOk result (λ n. n ≡ min (min (length self.old.bytes) self.old.most) (length into.old)) }
        ensures most { self.new.most ≡ self.old.most }
    {
        if self.failing.fails_next() {
            return Err(SourceFailed);
        }
        let rest = self.bytes.len() - self.position;
        let count = rest.min(self.most).min(into.len());
        let end = self.position + count;
        into[..count].copy_from_slice(&self.bytes[self.position..end]);
        self.position = end;
        Ok(count)
    }
}

/// A source over any reader, through a buffer. It tells nothing of its bytes.
///
/// It gives at most 2^64 - 1 bytes; a call after that fails, as does a call whose reader fails.
#[derive(Drop)]
pub struct RealSource<R: Read + Drop> {
    reader: BufReader<R>,
    supply: u64,
    faults: u64,
}

impl<R: Read + Drop> Model for RealSource<R> {
    ghost use Rattle.http_wire.specs.Memory.{StreamCounts};

    ghost Value = { StreamCounts };

    ghost view = { λ s. record { supply = s.supply; faults = s.faults } };
}

impl<R: Read + Drop> RealSource<R> {
    /// A source over this reader. An `Err` is want of memory for the buffer.
    pub fn new(alloc: Global, reader: R) -> Result<Self, AllocError>
        ensures { IfOk result (λ s. s ≡ record { supply = 2 ^ 64 - 1; faults = 0 }) }
    {
        match BufReader::new(alloc, reader) {
            Ok(reader) => Ok(RealSource {
                reader,
                supply: u64::MAX,
                faults: 0,
            }),
            Err(_) => Err(AllocError),
        }
    }

    /// Counts a fault, which stays at the greatest u64.
    fn fail(&mut self) -> SourceFailed
        ensures count { self.new
            ≡ record self.old { faults = min (self.old.faults + 1) (2 ^ 64 - 1) } }
        ensures later { self.old.faults ≤ self.new.faults }
    {
        self.faults = self.faults.saturating_add(1);
        SourceFailed
    }
}

impl<R: Read + Drop> Source for RealSource<R> {
    ghost faults = { λ s. s.faults };

    ghost supply = { λ s. s.supply };

    ghost left = { λ _. None };

    fn read(&mut self, into: &mut [u8]) -> Result<usize, SourceFailed> {
        if self.supply == 0 {
            return Err(self.fail());
        }
        let most = (into.len() as u64).min(self.supply) as usize;
        match self.reader.read(&mut into[..most]) {
            Ok(count) => {
                self.supply -= count as u64;
                Ok(count)
            }
            Err(_) => Err(self.fail()),
        }
    }
}
