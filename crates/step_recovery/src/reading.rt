//! How the records of a journal are taken, one by one.
ghost use Rattle.std.specs.Prelude.{◌≡◌, ◌≤◌, ◌<◌, ◌^◌, ◌∷◌, ◌++◌, [], ℕ, List, not, drop, Ok, Err, true, false, OnOk, IfOk, IfErr, IfSome};
ghost use Rattle.sched_plain.specs.History.{History};
ghost use Rattle.book_parts.specs.Stands.{calendar};
ghost use Rattle.journal_file.specs.Format.{IsBad, IsPayload};
ghost use Rattle.journal_file.specs.Journals.{OnlyRead, Passed, Keeps, journal_of};
ghost use Rattle.journal_steps.specs.Journals.{DamagedAt};
ghost use Rattle.step_recovery.specs.Recovery.{IsOfNoStep, Takes, Past, Recovered};
ghost use Rattle.step_recovery.specs.Faults.{FromDisk, Tells};
ghost use Rattle.step_recovery.specs.declared.fault.LoadFault.TheVariants as faults;

use crate::fault::{LoadFault, RecordFault};
use crate::taking::take_payload;
use disk_port::Disk;
use journal_file::{Journal, NextFault, OpenFault, Opening};
use std::alloc::Global;
use step_machine::Machine;

/// Brings the file to rest and looks at its header.
pub(crate) fn begin<D: Disk>(disk: &mut D, limit: u64) -> Result<Opening, LoadFault>
    ensures passed { IfOk result (λ opening. Passed D.seen D.image opening disk.new []) }
    ensures limit { IfOk result (λ opening. opening.limit ≡ limit) }
    ensures tells { IfErr result (λ fault. IfSome (D.seen disk.old) (Tells fault)) }
    ensures only_read { OnlyRead D.seen D.image D.moment D.image_since disk.old disk.new }
    ensures later { D.faults disk.old ≤ D.faults disk.new }
    ensures cause { IfErr result (FromDisk (D.faults disk.old) (D.faults disk.new)) }
{
    match Journal::open(disk, limit) {
        Ok(opening) => Ok(opening),
        Err(OpenFault::DiskFault) => Err(LoadFault::DiskFault),
        Err(OpenFault::NotAJournal { at }) => Err(LoadFault::NotAJournal { at }),
    }
}

/// The next payload, or that the journal ends here, with `false`.
fn next_payload<D: Disk>(
    disk: &mut D,
    opening: &mut Opening,
    payload: &mut Vec<u8>,
) -> Result<bool, LoadFault>
    ensures passed { result ≡ Ok true → (payloads : List (List ℕ)) → Passed D.seen D.image opening.old disk.old payloads
        → Passed D.seen D.image opening.new disk.new (payloads ++ payload.new.items ∷ []) }
    ensures closed { result ≡ Ok false → (payloads : List (List ℕ)) → Passed D.seen D.image opening.old disk.old payloads
        → Keeps D.seen D.image (journal_of opening.new) disk.new payloads }
    ensures sized { result ≡ Ok true → IsPayload payload.new.items }
    ensures is_closed { IfOk result (λ more. opening.new.is_closed ≡ not more) }
    ensures further { result ≡ Ok true → opening.old.at < opening.new.at }
    ensures limit { opening.new.limit ≡ opening.old.limit }
    ensures bad { (at : ℕ) → result ≡ Err (faults.Damaged at) → (at ≡ opening.old.at) × ((payloads : List (List ℕ))
        → Passed D.seen D.image opening.old disk.old payloads → IfSome (D.seen disk.old) (λ file. IsBad (drop at file))) }
    ensures header { (at : ℕ) → result ≡ Err (faults.NotAJournal at) → ⊥ }
    ensures only_read { OnlyRead D.seen D.image D.moment D.image_since disk.old disk.new }
    ensures later { D.faults disk.old ≤ D.faults disk.new }
    ensures cause { IfErr result (FromDisk (D.faults disk.old) (D.faults disk.new)) }
{
    match opening.next(disk, payload) {
        Ok(more) => Ok(more),
        Err(NextFault::DiskFault) => Err(LoadFault::DiskFault),
        Err(NextFault::BadRecord { at }) => Err(LoadFault::Damaged { at }),
        Err(NextFault::OutOfMemory) => Err(LoadFault::OutOfMemory),
    }
}

/// Takes the step of the payload behind a gate.
fn take_at<M: Machine>(
    alloc: Global,
    book: &mut M,
    gate: u64,
    payload: &[u8],
) -> Result<(), LoadFault>
    ensures taken { OnOk result (Takes (M.stands book.old) (M.stands book.new) payload.now) }
    ensures broken { (at : ℕ) → result ≡ Err (faults.Damaged at) → (at ≡ gate) × ((h : History) → M.stands book.old h → IsOfNoStep calendar h payload.now) }
    ensures header { (at : ℕ) → result ≡ Err (faults.NotAJournal at) → ⊥ }
    ensures disk { result ≡ Err faults.DiskFault → ⊥ }
{
    match take_payload(alloc, book, payload) {
        Ok(()) => Ok(()),
        Err(RecordFault::Broken) => Err(LoadFault::Damaged { at: gate }),
        Err(RecordFault::OutOfMemory) => Err(LoadFault::OutOfMemory),
    }
}

/// Takes the step of the next record, or finds that the journal ends here, with `false`.
fn take_next<M: Machine, D: Disk>(
    alloc: Global,
    disk: &mut D,
    opening: &mut Opening,
    book: &mut M,
    payload: &mut Vec<u8>,
) -> Result<bool, LoadFault>
    requires { Past M.stands D.seen D.image book.old opening.old disk.old }
    ensures past { result ≡ Ok true → Past M.stands D.seen D.image book.new opening.new disk.new }
    ensures recovered { result ≡ Ok false → Recovered M.stands D.seen D.image book.new (journal_of opening.new) disk.new }
    ensures is_closed { result ≡ Ok false → opening.new.is_closed ≡ true }
    ensures further { result ≡ Ok true → (opening.old.at < opening.new.at) × (opening.old.at < 2 ^ 64) }
    ensures limit { opening.new.limit ≡ opening.old.limit }
    ensures damaged { (at : ℕ) → result ≡ Err (faults.Damaged at) → IfSome (D.seen disk.old) (DamagedAt calendar at) }
    ensures header { (at : ℕ) → result ≡ Err (faults.NotAJournal at) → ⊥ }
    ensures only_read { OnlyRead D.seen D.image D.moment D.image_since disk.old disk.new }
    ensures later { D.faults disk.old ≤ D.faults disk.new }
    ensures cause { IfErr result (FromDisk (D.faults disk.old) (D.faults disk.new)) }
{
    let gate = opening.at();
    match next_payload(disk, opening, payload) {
        Ok(true) => match take_at(alloc, book, gate, payload.as_slice()) {
            Ok(()) => Ok(true),
            Err(fault) => Err(fault),
        },
        Ok(false) => Ok(false),
        Err(fault) => Err(fault),
    }
}

/// Takes the step of each record, to the end of the journal.
pub(crate) fn take_all<M: Machine, D: Disk>(
    alloc: Global,
    disk: &mut D,
    opening: &mut Opening,
    book: &mut M,
) -> Result<(), LoadFault>
    requires { Past M.stands D.seen D.image book.old opening.old disk.old }
    ensures recovered { OnOk result (Recovered M.stands D.seen D.image book.new (journal_of opening.new) disk.new) }
    ensures is_closed { OnOk result (opening.new.is_closed ≡ true) }
    ensures limit { opening.new.limit ≡ opening.old.limit }
    ensures damaged { (at : ℕ) → result ≡ Err (faults.Damaged at) → IfSome (D.seen disk.old) (DamagedAt calendar at) }
    ensures header { (at : ℕ) → result ≡ Err (faults.NotAJournal at) → ⊥ }
    ensures only_read { OnlyRead D.seen D.image D.moment D.image_since disk.old disk.new }
    ensures later { D.faults disk.old ≤ D.faults disk.new }
    ensures cause { IfErr result (FromDisk (D.faults disk.old) (D.faults disk.new)) }
{
    let mut payload = Vec::new(alloc);
    'records: loop {
        match take_next(alloc, disk, opening, book, &mut payload) {
            Ok(true) => {}
            Ok(false) => return Ok(()),
            Err(fault) => return Err(fault),
        }
    }
}
