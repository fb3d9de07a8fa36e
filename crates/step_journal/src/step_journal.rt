//! A file whose records are the steps of a history.
ghost use Rattle.std.specs.Prelude.{◌≡◌, ◌≢◌, ◌+◌, ◌^◌, ◌<◌, ◌≤◌, ◌↔◌, None, Some, Ok, Err, OnOk, OnErr, IfOk, IfErr, IfSome, IsSome, IsTrue, true, false, ◌⊎◌, if◌then◌else◌};
ghost use Rattle.outside.specs.Faults.{Rose, HasCause};
ghost use Rattle.disk_port.specs.Crashes.{LeavesOnly};
ghost use Rattle.sched_plain.specs.declared.step.Step.{Step};
ghost use Rattle.sched_plain.specs.History.{History, ◌upon◌};
ghost use Rattle.sched_plain.specs.Validity.{IsValid};
ghost use Rattle.journal_file.specs.Journals.{OnlyRead};
ghost use Rattle.step_keeper.specs.declared.fault.KeepFault.TheVariants as faults;
ghost use Rattle.step_journal.specs.Needs.{need_with, told};
ghost use Rattle.step_journal.specs.Files.{FileIs, IsEither, behind};

use crate::needs::room_behind;
use disk_port::Disk;
use journal_file::{AppendFault, Journal};
use sched_plain::Step;
use step_codec::{FrameBuf, write_step};
use step_keeper::{DiskFault, KeepFault};

/// The file of a history, on its disk, with a buffer in which records are made.
#[derive(Drop)]
pub struct StepJournal<D: Disk> {
    journal: Journal,
    disk: D,
    frame: FrameBuf,
}

impl<D: Disk> StepJournal<D> {
    /// The file of a journal that was opened on this disk. It takes no memory.
    pub fn new(journal: Journal, disk: D, frame: FrameBuf) -> StepJournal<D>
        ensures { (result.journal ≡ journal) × (result.disk ≡ disk) }
    {
        StepJournal {
            journal,
            disk,
            frame,
        }
    }

    /// Whether a step is in doubt.
    pub fn is_torn(&self) -> bool
        ensures { IsTrue result ↔ IsSome self.now.journal.doubt }
    {
        self.journal.is_torn()
    }

    /// Appends a step, with room behind it for the End of each of the attempts that are in the air once it is taken. After `Ok`
    /// every crash leaves the journal with the step upon it. After `DiskFault` the step is in doubt, after `Full` nothing was
    /// written. It takes no memory.
    pub fn append(&mut self, step: &Step, aloft: u64) -> Result<(), KeepFault>
        requires settled { self.old.journal.doubt ≡ None }
        requires valid { IsValid step.now }

        ensures kept { OnOk result ((h : History) → FileIs D.seen D.image self.old.journal self.old.disk h None
            → FileIs D.seen D.image self.new.journal self.new.disk (step.now upon h) None) }
        ensures doubted { result ≡ Err faults.DiskFault → (h : History) → FileIs D.seen D.image self.old.journal self.old.disk h None
            → FileIs D.seen D.image self.new.journal self.new.disk h (Some step.now) }
        // At no moment of the call did a crash leave anything else than the journal of a history, or with the step upon it.
        ensures during { (h : History) → FileIs D.seen D.image self.old.journal self.old.disk h None
            → LeavesOnly D.moment D.image_since self.old.disk self.new.disk (IsEither h step.now) }

        ensures ok { OnOk result (self.new.journal ≡ record self.old.journal { end = behind self.old.journal step.now }) }
        ensures torn { result ≡ Err faults.DiskFault
            → self.new.journal ≡ record self.old.journal { doubt = Some (behind self.old.journal step.now) } }
        ensures full { self.old.journal.limit < self.old.journal.end + need_with step.now aloft
            → result ≡ Err (faults.Full self.old.journal.end (told (need_with step.now aloft))) }
        ensures untouched { self.old.journal.limit < self.old.journal.end + need_with step.now aloft
            → (self.new.journal ≡ self.old.journal) × (self.new.disk ≡ self.old.disk) }
        ensures room { self.old.journal.end + need_with step.now aloft ≤ self.old.journal.limit
            → (result ≡ Ok tt) ⊎ (result ≡ Err faults.DiskFault) }
        ensures later { D.faults self.old.disk ≤ D.faults self.new.disk }
        ensures cause { result ≡ Err faults.DiskFault → Rose (D.faults self.old.disk) (D.faults self.new.disk) }
    {
        write_step(step, &mut self.frame);
        let frame = self.frame.as_bytes();
        let reserve = room_behind(&self.journal, frame.len(), aloft)?;
        match self.journal.append(&mut self.disk, frame, reserve) {
            Ok(()) => Ok(()),
            Err(AppendFault::Full { end, need }) => Err(KeepFault::Full { end, need }),
            Err(AppendFault::DiskFault) => Err(KeepFault::DiskFault),
        }
    }

    /// Ends the doubt of a step, and answers whether it is in. After `Ok` nothing is in doubt; after a fault all is as it was.
    pub fn settle(&mut self) -> Result<bool, DiskFault>
        requires torn { IsSome self.old.journal.doubt }

        ensures out { result ≡ Ok false → (h : History) (s : Step) → FileIs D.seen D.image self.old.journal self.old.disk h (Some s)
            → FileIs D.seen D.image self.new.journal self.new.disk h None }
        ensures is_in { result ≡ Ok true → (h : History) (s : Step) → FileIs D.seen D.image self.old.journal self.old.disk h (Some s)
            → FileIs D.seen D.image self.new.journal self.new.disk (s upon h) None }
        ensures doubted { OnErr result ((h : History) (s : Step) → FileIs D.seen D.image self.old.journal self.old.disk h (Some s)
            → FileIs D.seen D.image self.new.journal self.new.disk h (Some s)) }
        ensures only_read { OnlyRead D.seen D.image D.moment D.image_since self.old.disk self.new.disk }

        ensures sound { OnOk result (self.new.journal.doubt ≡ None) }
        ensures limit { self.new.journal.limit ≡ self.old.journal.limit }
        ensures end { IfOk result (λ is_in. IfSome self.old.journal.doubt (λ after.
            self.new.journal.end ≡ (if is_in then after else self.old.journal.end))) }
        ensures err { OnErr result (self.new.journal ≡ self.old.journal) }
        ensures cause { HasCause (D.faults self.old.disk) (D.faults self.new.disk) result }
    {
        match self.journal.settle(&mut self.disk) {
            Ok(is_in) => Ok(is_in),
            Err(_) => Err(DiskFault),
        }
    }

    /// The disk.
    pub fn close(self) -> D
        ensures { result ≡ self.disk }
    {
        self.disk
    }
}
