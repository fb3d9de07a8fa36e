ghost use Rattle.std.specs.Prelude.{◌≡◌, ◌⊎◌, ◌+◌, ◌-◌, ◌^◌, ◌<◌, ◌≤◌, [], ℕ, List, true, false, Some, Ok, Err, IfOk, OnOk, OnErr, IfSome, length, take, drop};
ghost use Rattle.outside.specs.Faults.{HasCause, Rose};
ghost use Rattle.journal_file.specs.declared.fault.NextFault.TheVariants as nexts;
ghost use Rattle.disk_port.specs.Writes.{piece};
ghost use Rattle.journal_file.specs.Ahead.{part_of, Reaches};
ghost use Rattle.journal_file.specs.Journals.{IsPiece, OnlyRead};

use crate::fault::NextFault;
use crate::head::HEAD;
use disk_port::{Disk, DiskFailed};
use std::marker::Model;

/// How many bytes are read in one call.
pub(crate) const BLOCK: usize = 16_384;

/// Bytes of a file that were read ahead, so that a short record costs no call of the disk.
#[derive(Drop)]
pub(crate) struct Ahead {
    bytes: [u8; BLOCK],
    start: u64,
    count: usize,
}

impl Model for Ahead {
    ghost use Rattle.std.specs.Prelude.{◌≤◌, ◌<◌, ◌+◌, ◌^◌, length, take};
    ghost use Rattle.journal_file.specs.Journals.{Piece};

    ghost Value = { Piece };

    ghost view = { λ a. record { start = a.start; bytes = take a.count a.bytes } };

    ghost invariant = { λ a. (a.count ≤ length a.bytes) × (a.start + a.count < 2 ^ 64) };
}

impl Ahead {
    /// Nothing.
    pub(crate) fn new() -> Ahead
        ensures { result ≡ record { start = 0; bytes = [] } }
    {
        Ahead {
            bytes: [0; BLOCK],
            start: 0,
            count: 0,
        }
    }

    /// What was read ahead from an offset on.
    pub(crate) fn part(&self, at: u64) -> &[u8]
        ensures part { result.now ≡ part_of self.now at }
        ensures piece { (file : List ℕ) → IsPiece self.now file → result.now ≡ piece file at (length result.now) }
        ensures within { at + length result.now < 2 ^ 64 }
    {
        if at < self.start || self.count as u64 <= at - self.start {
            return &self.bytes[..0];
        }
        let skip = (at - self.start) as usize;
        &self.bytes[skip..self.count]
    }

    /// Reads ahead from an offset on.
    fn fill<D: Disk>(&mut self, disk: &mut D, at: u64) -> Result<(), DiskFailed>
        ensures ok { OnOk result (IfSome (D.seen disk.old) (λ file. self.new.bytes ≡ piece file at BLOCK)) }
        ensures start { OnOk result (self.new.start ≡ at) }
        ensures err { OnErr result (self.new.bytes ≡ []) }
        ensures only_read { OnlyRead D.seen D.image D.moment D.image_since disk.old disk.new }
        ensures cause { HasCause (D.faults disk.old) (D.faults disk.new) result }
    {
        self.count = 0;
        let count = disk.read(at, &mut self.bytes)?;
        self.start = at;
        self.count = count;
        Ok(())
    }

    /// Reads ahead where fewer bytes from an offset on are there than a gate and a length have, and the file may have more.
    pub(crate) fn look<D: Disk>(&mut self, disk: &mut D, at: u64) -> Result<(), DiskFailed>
        ensures piece { IfSome (D.seen disk.old) (λ file. IsPiece self.old file → IsPiece self.new file) }
        ensures enough { OnOk result (IfSome (D.seen disk.old) (λ file. Reaches self.new at file)) }
        ensures only_read { OnlyRead D.seen D.image D.moment D.image_since disk.old disk.new }
        ensures cause { HasCause (D.faults disk.old) (D.faults disk.new) result }
    {
        if self.part(at).len() < HEAD {
            self.fill(disk, at)?;
        }
        Ok(())
    }

    /// Moves what the file has from an offset on to the front of `into`, as a disk does.
    pub(crate) fn read<D: Disk>(
        &self,
        disk: &mut D,
        at: u64,
        into: &mut [u8],
    ) -> Result<usize, DiskFailed>
        ensures fits { IfOk result (λ n. n ≤ length into.old) }
        ensures within { IfOk result (λ n. at + n < 2 ^ 64) }
        ensures bytes { IfOk result (λ n. IfSome (D.seen disk.old) (λ file. IsPiece self.now file
            → (n ≡ length (piece file at (length into.old))) × (take n into.new ≡ piece file at (length into.old)))) }
        ensures only_read { OnlyRead D.seen D.image D.moment D.image_since disk.old disk.new }
        ensures cause { HasCause (D.faults disk.old) (D.faults disk.new) result }
    {
        let part = self.part(at);
        if into.len() <= part.len() {
            into.copy_from_slice(&part[..into.len()]);
            return Ok(into.len());
        }
        disk.read(at, into)
    }

    /// Reads so many bytes of the file from an offset on in the place of what is in `into`, and answers whether they are
    /// all there.
    pub(crate) fn fetch<D: Disk>(
        &self,
        disk: &mut D,
        at: u64,
        len: usize,
        into: &mut Vec<u8>,
    ) -> Result<bool, NextFault>
        ensures whole { result ≡ Ok true → (length into.new.items ≡ len) × (at + len < 2 ^ 64) }
        ensures bytes { result ≡ Ok true → IfSome (D.seen disk.old) (λ file. IsPiece self.now file → into.new.items ≡ piece file at len) }
        ensures cut { result ≡ Ok false → IfSome (D.seen disk.old) (λ file. IsPiece self.now file → length (drop at file) < len) }
        ensures only_read { OnlyRead D.seen D.image D.moment D.image_since disk.old disk.new }
        ensures later { D.faults disk.old ≤ D.faults disk.new }
        ensures cause { result ≡ Err nexts.DiskFault → Rose (D.faults disk.old) (D.faults disk.new) }
        ensures no_record { (gate : ℕ) → result ≡ Err (nexts.BadRecord gate) → ⊥ }
    {
        into.clear();
        if into.resize(len, 0).is_err() {
            return Err(NextFault::OutOfMemory);
        }
        let count = self.read(disk, at, into.as_mut_slice())?;
        Ok(count == len)
    }
}
