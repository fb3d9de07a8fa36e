//! Reading a journal from its beginning.
ghost use Rattle.std.specs.Prelude.{◌≡◌, ◌+◌, ◌^◌, ◌<◌, ◌≤◌, ◌∷◌, ◌++◌, [], ℕ, List, Bool, true, false, not, None, Ok, Err, IfOk, OnOk, OnErr, IfSome, length, take, drop, if◌then◌else◌};
ghost use Rattle.outside.specs.Faults.{Rose};
ghost use Rattle.journal_file.specs.declared.format.TheConstants.{HEADER};
ghost use Rattle.journal_file.specs.Format.{IsPayload, IsBad, DiffersAt, RecordHead};
ghost use Rattle.journal_file.specs.Ahead.{part_of};
ghost use Rattle.journal_file.specs.Journals.{OnlyRead, Passed, Keeps, journal_of};
ghost use Rattle.journal_file.specs.declared.fault.OpenFault.TheVariants as opens;
ghost use Rattle.journal_file.specs.declared.fault.NextFault.TheVariants as nexts;

use crate::ahead::Ahead;
use crate::fault::{NextFault, OpenFault};
use crate::format::HEADER;
use crate::head::{Head, read_head};
use crate::journal::Journal;
use disk_port::Disk;
use std::marker::Model;

/// A journal that is being read from its beginning. The disk is lent to each call, and has to be the one that it was
/// opened on, unchanged.
#[derive(Drop)]
pub struct Opening {
    at: u64,
    limit: u64,
    is_closed: bool,
    ahead: Ahead,
}

impl Model for Opening {
    ghost use Rattle.journal_file.specs.Journals.{OpeningText};

    ghost Value = { OpeningText };

    ghost view = { λ o. record { at = o.at; limit = o.limit; is_closed = o.is_closed; ahead = o.ahead } };
}

/// The place of the first byte that is not that of the header, or is missing.
fn first_wrong(bytes: &[u8]) -> Option<usize>
    requires { length bytes.now ≤ length HEADER }
    ensures wrong { IfSome result (λ at. DiffersAt at bytes.now) }
    ensures right { result ≡ None → bytes.now ≡ HEADER }
{
    for at in 0..HEADER.len() {
        if bytes.len() <= at || bytes[at] != HEADER[at] {
            return Some(at);
        }
    }
    None
}

impl Journal {
    /// Brings the file to rest and looks at its header. The journal that is read may have `limit` bytes. It takes no
    /// memory.
    pub fn open<D: Disk>(disk: &mut D, limit: u64) -> Result<Opening, OpenFault>
        ensures passed { IfOk result (λ opening. Passed D.seen D.image opening disk.new []) }
        ensures limit { IfOk result (λ opening. opening.limit ≡ limit) }
        ensures not_a_journal { (at : ℕ) → result ≡ Err (opens.NotAJournal at) → IfSome (D.seen disk.old) (DiffersAt at) }
        ensures only_read { OnlyRead D.seen D.image D.moment D.image_since disk.old disk.new }
        ensures later { D.faults disk.old ≤ D.faults disk.new }
        ensures cause { result ≡ Err opens.DiskFault → Rose (D.faults disk.old) (D.faults disk.new) }
    {
        disk.sync()?;
        let mut header = [0; HEADER.len()];
        let count = disk.read(0, &mut header)?;
        if let Some(at) = first_wrong(&header[..count]) {
            return Err(OpenFault::NotAJournal { at: at as u64 });
        }
        Ok(Opening {
            at: HEADER.len() as u64,
            limit,
            is_closed: false,
            ahead: Ahead::new(),
        })
    }
}

impl Opening {
    /// The payload of the next record, in the place of what is in `into`; or that the journal ends here, with `false`.
    /// After an error the next record is still the next one, and what is in `into` may be anything.
    pub fn next<D: Disk>(&mut self, disk: &mut D, into: &mut Vec<u8>) -> Result<bool, NextFault>
        ensures passed { result ≡ Ok true → (payloads : List (List ℕ)) → Passed D.seen D.image self.old disk.old payloads
            → Passed D.seen D.image self.new disk.new (payloads ++ into.new.items ∷ []) }
        ensures closed { result ≡ Ok false → (payloads : List (List ℕ)) → Passed D.seen D.image self.old disk.old payloads
            → Keeps D.seen D.image (journal_of self.new) disk.new payloads }
        ensures bad { (gate : ℕ) → result ≡ Err (nexts.BadRecord gate) → (payloads : List (List ℕ))
            → Passed D.seen D.image self.old disk.old payloads → IfSome (D.seen disk.old) (λ file. IsBad (drop gate file)) }
        ensures gate { (gate : ℕ) → result ≡ Err (nexts.BadRecord gate) → gate ≡ self.old.at }
        ensures err { OnErr result ((payloads : List (List ℕ)) → Passed D.seen D.image self.old disk.old payloads
            → Passed D.seen D.image self.new disk.new payloads) }

        ensures sized { result ≡ Ok true → IsPayload into.new.items }
        ensures is_closed { IfOk result (λ more. self.new.is_closed ≡ not more) }
        ensures at { IfOk result (λ more. self.new.at ≡ (if more then self.old.at + 5 + length into.new.items else self.old.at)) }
        ensures limit { self.new.limit ≡ self.old.limit }
        ensures only_read { OnlyRead D.seen D.image D.moment D.image_since disk.old disk.new }
        ensures later { D.faults disk.old ≤ D.faults disk.new }
        ensures cause { result ≡ Err nexts.DiskFault → Rose (D.faults disk.old) (D.faults disk.new) }
    {
        self.is_closed = false;
        self.ahead.look(disk, self.at)?;
        match read_head(self.ahead.part(self.at)) {
            Head::Closed => {
                self.is_closed = true;
                Ok(false)
            }
            Head::Bad => Err(NextFault::BadRecord { at: self.at }),
            Head::Record { len } => self.take_payload(disk, len, into),
        }
    }

    /// Takes the payload behind the gate and the length of a record.
    fn take_payload<D: Disk>(
        &mut self,
        disk: &mut D,
        len: usize,
        into: &mut Vec<u8>,
    ) -> Result<bool, NextFault>
        requires head { RecordHead len (part_of self.old.ahead self.old.at) }
        requires within { self.old.at + 5 < 2 ^ 64 }
        ensures passed { result ≡ Ok true → (payloads : List (List ℕ)) → Passed D.seen D.image self.old disk.old payloads
            → Passed D.seen D.image self.new disk.new (payloads ++ into.new.items ∷ []) }
        ensures all { result ≡ Ok false → ⊥ }
        ensures bad { (gate : ℕ) → result ≡ Err (nexts.BadRecord gate) → (payloads : List (List ℕ))
            → Passed D.seen D.image self.old disk.old payloads → IfSome (D.seen disk.old) (λ file. IsBad (drop gate file)) }
        ensures gate { (gate : ℕ) → result ≡ Err (nexts.BadRecord gate) → gate ≡ self.old.at }
        ensures err { OnErr result (self.new ≡ self.old) }
        ensures sized { result ≡ Ok true → IsPayload into.new.items }
        ensures at { OnOk result (self.new ≡ record self.old { at = self.old.at + 5 + length into.new.items }) }
        ensures only_read { OnlyRead D.seen D.image D.moment D.image_since disk.old disk.new }
        ensures later { D.faults disk.old ≤ D.faults disk.new }
        ensures cause { result ≡ Err nexts.DiskFault → Rose (D.faults disk.old) (D.faults disk.new) }
    {
        let place = self.at + 5;
        if !self.ahead.fetch(disk, place, len, into)? {
            return Err(NextFault::BadRecord { at: self.at });
        }
        self.at = place + len as u64;
        Ok(true)
    }

    /// The offset of the next gate, in bytes.
    pub fn at(&self) -> u64
        ensures { result ≡ self.now.at }
    {
        self.at
    }

    /// Whether the last call of `next` found the closed gate.
    pub fn is_closed(&self) -> bool
        ensures { result ≡ self.now.is_closed }
    {
        self.is_closed
    }

    /// The journal that was read to its closed gate.
    pub fn finish(self) -> Journal
        requires { self.is_closed ≡ true }
        ensures { result ≡ journal_of self }
    {
        Journal::new(self.at, self.limit)
    }
}
