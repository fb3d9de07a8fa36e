ghost use Rattle.std.specs.Prelude.{◌≡◌, ◌+◌, ◌-◌, ◌^◌, ◌<◌, ◌≤◌, ◌↔◌, ◌∷◌, [], min, length, take, Some, IsErr, IsTrue, IsFalse, IfOk, OnOk, OnErr};
ghost use Rattle.outside.specs.Faults.{Rose, HasCause};
ghost use Rattle.disk_port.specs.Writes.{written, piece, Torn, TearsSeen};
ghost use Rattle.disk_port.specs.Crashes.{Follows, NoMore, LeavesSeen, Elapses};
ghost use Rattle.disk_port.specs.declared.event.Event.TheVariants.{Written, Synced};
ghost use Rattle.disk_port.specs.Past.{seen_of, IsImage, image_of, Since, since_now, only_since};
ghost use Rattle.disk_port.specs.Memory.{IsToFail, CallMade};

use crate::contents::{Contents, take_piece};
use crate::disk::{Disk, DiskFailed};
use crate::event::Event;
use crate::replay::image_after;
use outside::FailingCalls;
use plain_words::Blob;
use std::alloc::{AllocError, Global};
use std::marker::Model;

/// A file in memory, that tells what it holds and what a crash may leave of it, and fails at listed calls.
///
/// Its calls are counted from 1. A call fails where its number is listed, where it is that of the stop or a later one,
/// and where the file wants memory to grow. A failed call changes no byte.
#[derive(Drop)]
pub struct MemDisk {
    contents: Contents,
    events: Vec<Event>,
    failing: FailingCalls,
    calls: u64,
    stop: u64,
}

impl Model for MemDisk {
    ghost use Rattle.std.specs.Prelude.{◌≡◌, reverse};
    ghost use Rattle.disk_port.specs.Past.{seen_of};
    ghost use Rattle.disk_port.specs.Memory.{MemoryFile};

    ghost Value = { MemoryFile };

    ghost view = { λ d. record {
      first = d.contents.first;
      past = reverse d.events.items;
      failing = d.failing;
      stop = d.stop;
    } };

    ghost invariant = { λ d. (d.contents.now ≡ seen_of d.contents.first (reverse d.events.items)) × (d.calls ≡ d.failing.calls) };
}

impl MemDisk {
    /// A file of these bytes, all of them at rest. The calls with the numbers in `fails` are to fail, and each from the
    /// number `stop` on; the greatest u64 is no stop.
    pub fn new(bytes: Vec<u8>, fails: Vec<u64>, stop: u64) -> MemDisk
        ensures { result ≡ record {
          first = bytes.items;
          past = [];
          failing = record { numbers = fails.items; calls = 0; faults = 0 };
          stop = stop;
        } }
    {
        let alloc: Global = *bytes.allocator();
        MemDisk {
            contents: Contents::new(bytes),
            events: Vec::new(alloc),
            failing: FailingCalls::new(fails),
            calls: 0,
            stop,
        }
    }

    /// What a read gives.
    pub fn bytes(&self) -> &[u8]
        ensures { result.now ≡ seen_of self.now.first self.now.past }
    {
        self.contents.now()
    }

    /// How many calls were made.
    pub fn calls(&self) -> u64
        ensures { result ≡ self.now.failing.calls }
    {
        self.calls
    }

    /// How many calls failed.
    pub fn faults(&self) -> u64
        ensures { result ≡ self.now.failing.faults }
    {
        self.failing.faults()
    }

    /// A file that a crash now may leave: the first `keep` writes since the last sync are whole in it, and every byte in
    /// the ranges of the later ones is `fill`. A write that failed is none of them.
    pub fn image(&self, keep: u64, fill: u8) -> Result<Vec<u8>, AllocError>
        ensures exact { IfOk result (λ file. file.items ≡ image_of keep fill self.now.first self.now.past) }
        ensures image { IfOk result (λ file. IsImage self.now.first self.now.past file.items) }
    {
        let alloc: Global = *self.events.allocator();
        image_after(
            alloc,
            self.contents.first(),
            self.events.as_slice(),
            keep,
            fill,
        )
    }

    /// Counts one more call, and says whether it is to fail; where it is, counts a fault too.
    fn refuses(&mut self) -> bool
        ensures first { self.new.first ≡ self.old.first }
        ensures past { self.new.past ≡ self.old.past }
        ensures stop { self.new.stop ≡ self.old.stop }
        ensures numbers { self.new.failing.numbers ≡ self.old.failing.numbers }
        ensures calls { self.new.failing.calls ≡ min (self.old.failing.calls + 1) (2 ^ 64 - 1) }
        ensures fails { IsTrue result ↔ IsToFail self.new self.new.failing.calls }
        ensures later { self.old.failing.faults ≤ self.new.failing.faults }
        ensures quiet { IsFalse result → self.new.failing.faults ≡ self.old.failing.faults }
        ensures rose { IsTrue result → Rose self.old.failing.faults self.new.failing.faults }
    {
        let listed = self.failing.fails_next();
        self.calls = self.calls.saturating_add(1);
        let stopped = self.stop <= self.calls && self.stop < u64::MAX;
        if stopped && !listed {
            self.failing.count_fault();
        }
        listed || stopped
    }

    /// Counts a fault.
    fn fail(&mut self) -> DiskFailed
        ensures value { self.new ≡ record self.old {
          failing = record self.old.failing { faults = min (self.old.failing.faults + 1) (2 ^ 64 - 1) };
        } }
        ensures later { self.old.failing.faults ≤ self.new.failing.faults }
    {
        self.failing.count_fault();
        DiskFailed
    }

    /// Writes, and keeps what was written. An `Err` is want of memory, and changes nothing.
    fn put(&mut self, at: u64, bytes: &[u8]) -> Result<(), AllocError>
        ensures ok { OnOk result (self.new ≡ record self.old { past = Written at bytes.now ∷ self.old.past }) }
        ensures err { OnErr result (self.new ≡ self.old) }
    {
        let alloc: Global = *self.events.allocator();
        let copy = Vec::from_slice(alloc, bytes)?;
        self.events.reserve(1)?;
        self.contents.write(at, bytes)?;
        let _ = self.events.push(Event::Written {
            at,
            bytes: Blob::from_vec(copy),
        });
        Ok(())
    }

    /// Keeps that a sync succeeded. An `Err` is want of memory, and changes nothing.
    fn settle(&mut self) -> Result<(), AllocError>
        ensures ok { OnOk result (self.new ≡ record self.old { past = Synced ∷ self.old.past }) }
        ensures err { OnErr result (self.new ≡ self.old) }
    {
        self.events.push(Event::Synced)?;
        Ok(())
    }
}

impl Disk for MemDisk {
    ghost seen = { λ d. Some (seen_of d.first d.past) };

    ghost image = { λ d file. IsImage d.first d.past file };

    ghost moment = { λ d. length d.past };

    ghost image_since = { λ d from file. Since (IsImage d.first) d.past from file };

    ghost faults = { λ d. d.failing.faults };

    ghost counts_now = { λ d from file le now. since_now (IsImage d.first) d.past from file now };

    ghost only_now = { λ d file left. only_since (IsImage d.first) d.past file left };

    fn len(&mut self) -> Result<u64, DiskFailed>
        ensures length { IfOk result (λ n. n ≡ length (seen_of self.old.first self.old.past)) }
        ensures seen { Some (seen_of self.new.first self.new.past) ≡ Some (seen_of self.old.first self.old.past) }
        ensures image { NoMore (IsImage self.old.first self.old.past) (IsImage self.new.first self.new.past) }
        ensures time { Elapses (length self.old.past) (length self.new.past) (Since (IsImage self.old.first) self.old.past)
            (Since (IsImage self.new.first) self.new.past) (IsImage self.new.first self.new.past) }
        ensures cause { HasCause self.old.failing.faults self.new.failing.faults result }

        // The list and the stop decide, and nothing else.
        ensures made { CallMade self.old self.new }
        ensures listed { IsErr result ↔ IsToFail self.new self.new.failing.calls }
        ensures past { self.new.past ≡ self.old.past }
    {
        if self.refuses() {
            return Err(DiskFailed);
        }
        Ok(self.contents.now().len() as u64)
    }

    fn read(&mut self, at: u64, into: &mut [u8]) -> Result<usize, DiskFailed>
        ensures fits { IfOk result (λ n. n ≤ length into.old) }
        ensures within { IfOk result (λ n. at + n < 2 ^ 64) }
        ensures count { IfOk result (λ n. n ≡ length (piece (seen_of self.old.first self.old.past) at (length into.old))) }
        ensures bytes { IfOk result (λ n. take n into.new ≡ piece (seen_of self.old.first self.old.past) at (length into.old)) }
        ensures seen { Some (seen_of self.new.first self.new.past) ≡ Some (seen_of self.old.first self.old.past) }
        ensures image { NoMore (IsImage self.old.first self.old.past) (IsImage self.new.first self.new.past) }
        ensures time { Elapses (length self.old.past) (length self.new.past) (Since (IsImage self.old.first) self.old.past)
            (Since (IsImage self.new.first) self.new.past) (IsImage self.new.first self.new.past) }
        ensures cause { HasCause self.old.failing.faults self.new.failing.faults result }

        // The list and the stop decide, and nothing else.
        ensures made { CallMade self.old self.new }
        ensures listed { IsErr result ↔ IsToFail self.new self.new.failing.calls }
        ensures past { self.new.past ≡ self.old.past }
    {
        if self.refuses() {
            return Err(DiskFailed);
        }
        Ok(take_piece(self.contents.now(), at, into))
    }

    fn write_at(&mut self, at: u64, bytes: &[u8]) -> Result<(), DiskFailed>
        ensures written { OnOk result (Some (seen_of self.new.first self.new.past)
            ≡ Some (written (seen_of self.old.first self.old.past) at bytes.now)) }
        ensures torn { OnErr result (TearsSeen at (length bytes.now) (Some (seen_of self.old.first self.old.past))
            (Some (seen_of self.new.first self.new.past))) }
        ensures image { Follows (Torn at (length bytes.now)) (IsImage self.old.first self.old.past) (IsImage self.new.first self.new.past) }
        ensures time { Elapses (length self.old.past) (length self.new.past) (Since (IsImage self.old.first) self.old.past)
            (Since (IsImage self.new.first) self.new.past) (IsImage self.new.first self.new.past) }
        ensures cause { HasCause self.old.failing.faults self.new.failing.faults result }

        // Where the list and the stop let it, it fails at want of memory alone, and then changes nothing.
        ensures made { CallMade self.old self.new }
        ensures listed { IsToFail self.new self.new.failing.calls → IsErr result }
        ensures past { OnOk result (self.new.past ≡ Written at bytes.now ∷ self.old.past) }
        ensures kept { OnErr result (self.new.past ≡ self.old.past) }
    {
        if self.refuses() {
            return Err(DiskFailed);
        }
        match self.put(at, bytes) {
            Ok(()) => Ok(()),
            Err(_) => Err(self.fail()),
        }
    }

    fn sync(&mut self) -> Result<(), DiskFailed>
        ensures durable { OnOk result (LeavesSeen (Some (seen_of self.old.first self.old.past)) (IsImage self.new.first self.new.past)) }
        ensures seen { Some (seen_of self.new.first self.new.past) ≡ Some (seen_of self.old.first self.old.past) }
        ensures image { NoMore (IsImage self.old.first self.old.past) (IsImage self.new.first self.new.past) }
        ensures time { Elapses (length self.old.past) (length self.new.past) (Since (IsImage self.old.first) self.old.past)
            (Since (IsImage self.new.first) self.new.past) (IsImage self.new.first self.new.past) }
        ensures cause { HasCause self.old.failing.faults self.new.failing.faults result }

        // Where the list and the stop let it, it fails at want of memory alone, and then changes nothing.
        ensures made { CallMade self.old self.new }
        ensures listed { IsToFail self.new self.new.failing.calls → IsErr result }
        ensures past { OnOk result (self.new.past ≡ Synced ∷ self.old.past) }
        ensures kept { OnErr result (self.new.past ≡ self.old.past) }
    {
        if self.refuses() {
            return Err(DiskFailed);
        }
        match self.settle() {
            Ok(()) => Ok(()),
            Err(_) => Err(self.fail()),
        }
    }
}
