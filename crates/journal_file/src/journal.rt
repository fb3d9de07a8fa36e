//! A journal that was opened.
ghost use Rattle.std.specs.Prelude.{◌≡◌, ◌⊎◌, ◌↔◌, ◌+◌, ◌-◌, ◌^◌, ◌<◌, ◌≤◌, ◌∷◌, ◌++◌, [], ℕ, List, true, false, IsTrue, IsSome, Some, None, Ok, Err, IfOk, OnOk, OnErr, IfErr, IfSome, length, get_or, ◌==◌, if◌then◌else◌};
ghost use Rattle.outside.specs.Faults.{Rose, HasCause};
ghost use Rattle.disk_port.specs.Crashes.{LeavesOnly};
ghost use Rattle.journal_file.specs.Format.{IsFrame, payload_of, HoldsEither};
ghost use Rattle.journal_file.specs.declared.format.TheConstants.{OPEN};
ghost use Rattle.journal_file.specs.Journals.{OnlyRead, Keeps, Doubts};
ghost use Rattle.journal_file.specs.declared.fault.AppendFault.TheVariants as faults;

use crate::fault::{AppendFault, DiskFault};
use crate::format::OPEN;
use crate::rest::put;
use disk_port::{Disk, DiskFailed};
use std::marker::Model;

/// The journal of a file: where its closed gate is, and how long the file may be. The disk is lent to each call, and has
/// to be the one that the journal was opened on.
///
/// A journal is sound, or torn: then a call of the disk failed in an append, and one record is in doubt.
#[derive(Debug, Drop)]
pub struct Journal {
    end: u64,
    limit: u64,
    doubt: Option<u64>,
}

impl Model for Journal {
    ghost use Rattle.journal_file.specs.Journals.{JournalText};

    ghost Value = { JournalText };

    ghost view = { λ j. record { end = j.end; limit = j.limit; doubt = j.doubt } };
}

/// Whether `need` more bytes behind `end` are more than there may be.
fn is_full(end: u64, need: u64, limit: u64) -> bool
    ensures { IsTrue result ↔ (limit < end + need) }
{
    limit < end || limit - end < need
}

/// Whether the gate at this offset is open; a gate that is missing is not.
fn is_open<D: Disk>(disk: &mut D, at: u64) -> Result<bool, DiskFailed>
    ensures gate { IfOk result (λ is_open. IfSome (D.seen disk.old) (λ file. IsTrue is_open ↔ (get_or file at 0 ≡ OPEN))) }
    ensures only_read { OnlyRead D.seen D.image D.moment D.image_since disk.old disk.new }
    ensures cause { HasCause (D.faults disk.old) (D.faults disk.new) result }
{
    let mut gate = [0];
    let count = disk.read(at, &mut gate)?;
    Ok(count == 1 && gate[0] == OPEN)
}

impl Journal {
    /// The journal with its closed gate at this offset.
    pub(crate) fn new(end: u64, limit: u64) -> Journal
        ensures { result ≡ record { end = end; limit = limit; doubt = None } }
    {
        Journal {
            end,
            limit,
            doubt: None,
        }
    }

    /// The offset of its closed gate, in bytes; of a torn journal that before the record in doubt.
    pub fn end(&self) -> u64
        ensures { result ≡ self.now.end }
    {
        self.end
    }

    /// How many bytes the file may have.
    pub fn limit(&self) -> u64
        ensures { result ≡ self.now.limit }
    {
        self.limit
    }

    /// Whether a record is in doubt.
    pub fn is_torn(&self) -> bool
        ensures { IsTrue result ↔ IsSome self.now.doubt }
    {
        self.doubt.is_some()
    }

    /// Appends the record of a frame. After `Ok` every crash leaves a file that holds it. The journal has to have room for
    /// the frame, the next record's gate and `reserve` bytes more.
    ///
    /// A frame is the length of its payload in four bytes, the payload, and one byte 0. It is written behind the closed
    /// gate and brought to rest before the gate is opened: four calls of the disk, and no memory. After `DiskFault` the
    /// journal is torn.
    pub fn append<D: Disk>(
        &mut self,
        disk: &mut D,
        frame: &[u8],
        reserve: u64,
    ) -> Result<(), AppendFault>
        requires sound { self.old.doubt ≡ None }
        requires framed { IsFrame frame.now }
        requires need { length frame.now + 1 + reserve < 2 ^ 64 }

        ensures kept { OnOk result ((payloads : List (List ℕ)) → Keeps D.seen D.image self.old disk.old payloads
            → Keeps D.seen D.image self.new disk.new (payloads ++ payload_of frame.now ∷ [])) }
        ensures doubted { result ≡ Err faults.DiskFault → (payloads : List (List ℕ)) → Keeps D.seen D.image self.old disk.old payloads
            → Doubts D.seen D.image self.new disk.new payloads (payload_of frame.now) }
        // At no moment of the call did a crash leave anything else than these payloads, or these and the new one.
        ensures during { (payloads : List (List ℕ)) → Keeps D.seen D.image self.old disk.old payloads
            → LeavesOnly D.moment D.image_since disk.old disk.new (HoldsEither payloads (payload_of frame.now)) }

        ensures ok { OnOk result (self.new ≡ record self.old { end = self.old.end + length frame.now }) }
        ensures torn { result ≡ Err faults.DiskFault
            → self.new ≡ record self.old { doubt = Some (self.old.end + length frame.now) } }
        ensures full { result ≡ Err (faults.Full self.old.end (length frame.now + 1 + reserve))
            ↔ (self.old.limit < self.old.end + (length frame.now + 1 + reserve)) }
        ensures fault { IfErr result (λ fault. (fault ≡ faults.DiskFault)
            ⊎ (fault ≡ faults.Full self.old.end (length frame.now + 1 + reserve))) }
        // No call of the disk is made where it is full.
        ensures untouched { self.old.limit < self.old.end + (length frame.now + 1 + reserve) → (self.new ≡ self.old) × (disk.new ≡ disk.old) }
        ensures later { D.faults disk.old ≤ D.faults disk.new }
        ensures cause { result ≡ Err faults.DiskFault → Rose (D.faults disk.old) (D.faults disk.new) }
    {
        let len = frame.len() as u64;
        let need = len + 1 + reserve;
        if is_full(self.end, need, self.limit) {
            return Err(AppendFault::Full {
                end: self.end,
                need,
            });
        }
        let after = self.end + len;
        self.doubt = Some(after);
        put(disk, self.end + 1, frame)?;
        put(disk, self.end, &[OPEN])?;
        self.end = after;
        self.doubt = None;
        Ok(())
    }

    /// Settles the record in doubt, and answers whether it is in. After `Ok` the journal is sound; after a fault it is as
    /// it was.
    pub fn settle<D: Disk>(&mut self, disk: &mut D) -> Result<bool, DiskFault>
        requires torn { IsSome self.old.doubt }

        ensures out { result ≡ Ok false → (payloads : List (List ℕ)) (payload : List ℕ)
            → Doubts D.seen D.image self.old disk.old payloads payload → Keeps D.seen D.image self.new disk.new payloads }
        ensures is_in { result ≡ Ok true → (payloads : List (List ℕ)) (payload : List ℕ)
            → Doubts D.seen D.image self.old disk.old payloads payload → Keeps D.seen D.image self.new disk.new (payloads ++ payload ∷ []) }
        ensures doubted { OnErr result ((payloads : List (List ℕ)) (payload : List ℕ)
            → Doubts D.seen D.image self.old disk.old payloads payload → Doubts D.seen D.image self.new disk.new payloads payload) }
        ensures only_read { OnlyRead D.seen D.image D.moment D.image_since disk.old disk.new }

        ensures sound { OnOk result (self.new.doubt ≡ None) }
        ensures limit { self.new.limit ≡ self.old.limit }
        ensures end { IfOk result (λ is_in. IfSome self.old.doubt (λ after. self.new.end ≡ (if is_in then after else self.old.end))) }
        ensures err { OnErr result (self.new ≡ self.old) }
        ensures cause { HasCause (D.faults disk.old) (D.faults disk.new) result }
    {
        let behind = self.doubt.unwrap();
        disk.sync()?;
        let is_in = is_open(disk, self.end)?;
        if is_in {
            self.end = behind;
        }
        self.doubt = None;
        Ok(is_in)
    }
}
