//! Bytes in memory that are read and written at offsets.
ghost use Rattle.std.specs.Prelude.{◌≡◌, ◌+◌, ◌<◌, ◌≤◌, ◌++◌, length, take, drop, Some, OnOk, OnErr};
ghost use Rattle.disk_port.specs.Writes.{reaching, written, piece};

use std::alloc::{AllocError, Global};
use std::marker::Model;

/// Bytes that were there at first, and what became of them. They are copied when they change for the first time, so that
/// to begin takes no memory.
#[derive(Drop)]
pub(crate) struct Contents {
    first: Vec<u8>,
    changed: Option<Vec<u8>>,
}

impl Model for Contents {
    ghost use Rattle.std.specs.Option.{option_map_or};
    ghost use Rattle.disk_port.specs.Memory.{Held};

    ghost Value = { Held };

    ghost view = { λ c. record {
      first = c.first.items;
      now = option_map_or (λ changed. changed.items) c.changed c.first.items;
    } };
}

impl Contents {
    /// These bytes, unchanged.
    pub(crate) fn new(first: Vec<u8>) -> Contents
        ensures { result ≡ record { first = first.items; now = first.items } }
    {
        Contents {
            first,
            changed: None,
        }
    }

    /// The bytes at first.
    pub(crate) fn first(&self) -> &[u8]
        ensures { result.now ≡ self.now.first }
    {
        self.first.as_slice()
    }

    /// The bytes now.
    pub(crate) fn now(&self) -> &[u8]
        ensures { result.now ≡ self.now.now }
    {
        match &self.changed {
            Some(changed) => changed.as_slice(),
            None => self.first.as_slice(),
        }
    }

    /// Writes the bytes at an offset. An `Err` is want of memory, and nothing is written then.
    pub(crate) fn write(&mut self, at: u64, bytes: &[u8]) -> Result<(), AllocError>
        ensures first { self.new.first ≡ self.old.first }
        ensures ok { OnOk result (self.new.now ≡ written self.old.now at bytes.now) }
        ensures err { OnErr result (self.new.now ≡ self.old.now) }
    {
        if let Some(changed) = &mut self.changed {
            return put(changed, at, bytes);
        }
        let alloc: Global = *self.first.allocator();
        let mut changed = Vec::from_slice(alloc, self.first.as_slice())?;
        put(&mut changed, at, bytes)?;
        self.changed = Some(changed);
        Ok(())
    }
}

/// Makes the file as long as this at least. An `Err` changes nothing.
fn lengthen(file: &mut Vec<u8>, len: usize) -> Result<(), AllocError>
    ensures ok { OnOk result (file.new.items ≡ reaching len file.old.items) }
    ensures err { OnErr result (file.new.items ≡ file.old.items) }
{
    if len <= file.len() {
        return Ok(());
    }
    file.resize(len, 0)
}

/// Writes the bytes over those at an offset of the slice.
fn overwrite(file: &mut [u8], start: usize, bytes: &[u8])
    requires { start + length bytes.now ≤ length file.old }
    ensures { file.new ≡ take start file.old ++ bytes.now ++ drop (start + length bytes.now) file.old }
{
    file[start..start + bytes.len()].copy_from_slice(bytes);
}

/// Writes the bytes at an offset of the file. An `Err` is want of memory, and changes nothing.
pub(crate) fn put(file: &mut Vec<u8>, at: u64, bytes: &[u8]) -> Result<(), AllocError>
    ensures ok { OnOk result (file.new.items ≡ written file.old.items at bytes.now) }
    ensures err { OnErr result (file.new.items ≡ file.old.items) }
{
    let start = at as usize;
    let Some(end) = start.checked_add(bytes.len()) else {
        return Err(AllocError);
    };
    lengthen(file, end)?;
    overwrite(file, start, bytes);
    Ok(())
}

/// Moves what the file has from an offset on to the front of `into`, and returns how many bytes.
pub(crate) fn take_piece(file: &[u8], at: u64, into: &mut [u8]) -> usize
    ensures fits { result ≤ length into.old }
    ensures count { result ≡ length (piece file.now at (length into.old)) }
    ensures bytes { take result into.new ≡ piece file.now at (length into.old) }
{
    let start = at as usize;
    if start >= file.len() {
        return 0;
    }
    let count = (file.len() - start).min(into.len());
    into[..count].copy_from_slice(&file[start..start + count]);
    count
}
