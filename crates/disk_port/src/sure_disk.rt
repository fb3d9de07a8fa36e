ghost use Rattle.std.specs.Prelude.{◌≡◌, ◌+◌, ◌-◌, ◌^◌, ◌≤◌, ◌∷◌, [], min, length, Some, OnOk, OnErr};
ghost use Rattle.disk_port.specs.declared.event.Event.TheVariants.{Written};
ghost use Rattle.disk_port.specs.Past.{seen_of, IsSeen, Since, since_now, only_since};

use crate::contents::{Contents, take_piece};
use crate::disk::{Disk, DiskFailed};
use std::alloc::{AllocError, Global};
use std::marker::Model;

/// Where one write began, and how many bytes it had.
#[derive(Clone, Copy)]
pub(crate) struct Place {
    at: u64,
    len: u64,
}

/// A file in memory of which a crash leaves what a read gives, at every moment. A call fails only where the file wants
/// memory to grow; a failed call changes no byte.
///
/// So that it can tell which files a crash since an earlier moment might have left, it keeps each write: its bytes, and 16
/// bytes more.
#[derive(Drop)]
pub struct SureDisk {
    contents: Contents,
    places: Vec<Place>,
    bytes: Vec<u8>,
    faults: u64,
}

impl Model for SureDisk {
    ghost use Rattle.std.specs.Prelude.{◌≡◌, reverse};
    ghost use Rattle.disk_port.specs.Past.{seen_of};
    ghost use Rattle.disk_port.specs.Memory.{SureFile};
    ghost use Rattle.disk_port.specs.Places.{writes_at};

    ghost Value = { SureFile };

    ghost view = { λ d. record {
      first = d.contents.first;
      past = writes_at (reverse d.places.items) d.bytes.items;
      faults = d.faults;
    } };

    ghost invariant = { λ d. d.contents.now ≡ seen_of d.contents.first (writes_at (reverse d.places.items) d.bytes.items) };
}

impl SureDisk {
    /// A file of these bytes.
    pub fn new(bytes: Vec<u8>) -> SureDisk
        ensures { result ≡ record { first = bytes.items; past = []; faults = 0 } }
    {
        let alloc: Global = *bytes.allocator();
        SureDisk {
            contents: Contents::new(bytes),
            places: Vec::new(alloc),
            bytes: Vec::new(alloc),
            faults: 0,
        }
    }

    /// What a read gives.
    pub fn bytes(&self) -> &[u8]
        ensures { result.now ≡ seen_of self.now.first self.now.past }
    {
        self.contents.now()
    }

    /// How many calls failed.
    pub fn faults(&self) -> u64
        ensures { result ≡ self.now.faults }
    {
        self.faults
    }

    /// Counts a fault.
    fn fail(&mut self) -> DiskFailed
        ensures value { self.new ≡ record self.old { faults = min (self.old.faults + 1) (2 ^ 64 - 1) } }
        ensures later { self.old.faults ≤ self.new.faults }
    {
        self.faults = self.faults.saturating_add(1);
        DiskFailed
    }

    /// Writes, and keeps what was written. An `Err` is want of memory, and changes nothing.
    fn put(&mut self, at: u64, bytes: &[u8]) -> Result<(), AllocError>
        ensures ok { OnOk result (self.new ≡ record self.old { past = Written at bytes.now ∷ self.old.past }) }
        ensures err { OnErr result (self.new ≡ self.old) }
    {
        self.places.reserve(1)?;
        self.bytes.reserve(bytes.len())?;
        self.contents.write(at, bytes)?;
        let _ = self.bytes.extend_from_slice(bytes);
        let _ = self.places.push(Place {
            at,
            len: bytes.len() as u64,
        });
        Ok(())
    }
}

impl Disk for SureDisk {
    ghost seen = { λ d. Some (seen_of d.first d.past) };

    ghost image = { λ d file. IsSeen d.first d.past file };

    ghost moment = { λ d. length d.past };

    ghost image_since = { λ d from file. Since (IsSeen d.first) d.past from file };

    ghost faults = { λ d. d.faults };

    ghost counts_now = { λ d from file le now. since_now (IsSeen d.first) d.past from file now };

    ghost only_now = { λ d file left. only_since (IsSeen d.first) d.past file left };

    fn len(&mut self) -> Result<u64, DiskFailed> {
        Ok(self.contents.now().len() as u64)
    }

    fn read(&mut self, at: u64, into: &mut [u8]) -> Result<usize, DiskFailed> {
        Ok(take_piece(self.contents.now(), at, into))
    }

    fn write_at(&mut self, at: u64, bytes: &[u8]) -> Result<(), DiskFailed> {
        match self.put(at, bytes) {
            Ok(()) => Ok(()),
            Err(_) => Err(self.fail()),
        }
    }

    fn sync(&mut self) -> Result<(), DiskFailed> {
        Ok(())
    }
}
