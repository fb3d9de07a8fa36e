//! A book that was read from a file.
ghost use Rattle.std.specs.Prelude.{◌≡◌, IfOk};
ghost use Rattle.sched_plain.specs.History.{History, count};
ghost use Rattle.sched_plain.specs.Moments.{moment};
ghost use Rattle.sched_plain.specs.Report.{counts};
ghost use Rattle.sched_calls.specs.Replies.{answer_to};

use disk_port::Disk;
use journal_file::Journal;
use sched_calls::{Read, Refusal, Reply};
use sched_plain::Counts;
use std::alloc::AllocError;
use step_machine::Machine;

/// A book that was read from the file of a journal, with the journal and its disk: nothing was written, and nothing is yet.
#[derive(Drop)]
pub struct Loaded<M: Machine, D: Disk> {
    pub(crate) book: M,
    pub(crate) journal: Journal,
    pub(crate) disk: D,
}

impl<M: Machine, D: Disk> Loaded<M, D> {
    /// The book, lent.
    pub fn book(&self) -> &M
        ensures { result.now ≡ self.now.book }
    {
        &self.book
    }

    /// How many steps the history has.
    pub fn steps(&self) -> u64
        ensures { (h : History) → M.stands self.now.book h → result ≡ count h }
    {
        self.book.length()
    }

    /// The numbers of a report, at the moment of the last step.
    pub fn counts(&self) -> Counts
        ensures { (h : History) → M.stands self.now.book h → result ≡ counts h (moment h) }
    {
        let now = self.book.moment();
        self.book.counts(now)
    }

    /// The answer to a read: the first rule that it breaks, or what it shows. It fails only for want of memory.
    pub fn reply(&self, read: &Read) -> Result<Result<Reply, Refusal>, AllocError>
        ensures { (h : History) → M.stands self.now.book h → IfOk result (λ answer. answer ≡ answer_to h read.now) }
    {
        self.book.reply(read)
    }

    /// The book, the journal and the disk, for what goes on with them.
    pub fn into_parts(self) -> (M, Journal, D)
        ensures book { result.0 ≡ self.book }
        ensures journal { result.1 ≡ self.journal }
        ensures disk { result.2 ≡ self.disk }
    {
        (self.book, self.journal, self.disk)
    }
}

impl<M: Machine + Drop, D: Disk> Loaded<M, D> {
    /// The disk, without the book.
    pub fn close(self) -> D
        ensures { result ≡ self.disk }
    {
        self.disk
    }
}
