//! A book is opened from a file.
ghost use Rattle.std.specs.Prelude.{◌≡◌, ◌⊎◌, ◌≤◌, ℕ, List, Some, IfOk, IfErr, MatchResult, IfSome};
ghost use Rattle.sched_plain.specs.History.{History, beginning};
ghost use Rattle.book_parts.specs.Stands.{calendar};
ghost use Rattle.journal_file.specs.Journals.{OnlyRead};
ghost use Rattle.journal_steps.specs.Journals.{Reading, ReadsAs};
ghost use Rattle.step_recovery.specs.Recovery.{Recovered};
ghost use Rattle.step_recovery.specs.Faults.{FromDisk, IsElsewhere, Tells, StandsAs, is_told_as};

use crate::fault::LoadFault;
use crate::loaded::Loaded;
use crate::reading::{begin, take_all};
use disk_port::Disk;
use journal_file::Journal;
use std::alloc::Global;
use step_machine::Machine;

/// Reads a journal into a book of the empty history.
fn read<M: Machine, D: Disk>(
    alloc: Global,
    disk: &mut D,
    book: &mut M,
    limit: u64,
) -> Result<Journal, LoadFault>
    requires { M.stands book.old beginning }
    ensures recovered { IfOk result (λ journal. Recovered M.stands D.seen D.image book.new journal disk.new) }
    ensures limit { IfOk result (λ journal. journal.limit ≡ limit) }
    ensures tells { IfErr result (λ fault. IfSome (D.seen disk.old) (Tells fault)) }
    ensures only_read { OnlyRead D.seen D.image D.moment D.image_since disk.old disk.new }
    ensures later { D.faults disk.old ≤ D.faults disk.new }
    ensures cause { IfErr result (FromDisk (D.faults disk.old) (D.faults disk.new)) }
{
    let mut opening = match begin(disk, limit) {
        Ok(opening) => opening,
        Err(fault) => return Err(fault),
    };
    if let Err(fault) = take_all(alloc, disk, &mut opening, book) {
        return Err(fault);
    }
    Ok(opening.finish())
}

/// Opens a book from the file of a journal, which may have `limit` bytes, with the book of the empty history to begin from.
///
/// It is one pass over the file, with one buffer, whose steps are as many as its records. The answer is Ok exactly where the
/// file is the journal of a legal history, and the book stands for that one; [`LoadFault::Damaged`] tells the gate of the
/// first damage and [`LoadFault::NotAJournal`] the first wrong byte of the header, each exactly where the file is so. Only a
/// failed call of the disk and want of memory may come in their place. With a fault the disk is given back.
pub fn open<M: Machine + Drop, D: Disk>(
    alloc: Global,
    disk: D,
    empty: M,
    limit: u64,
) -> Result<Loaded<M, D>, (LoadFault, D)>
    requires { M.stands empty beginning }

    // There is a history for which the book stands and of which each image of the disk is the journal.
    ensures recovered { IfOk result (λ loaded. Recovered M.stands D.seen D.image loaded.book loaded.journal loaded.disk) }
    ensures limit { IfOk result (λ loaded. loaded.journal.limit ≡ limit) }
    // A fault tells what the file is.
    ensures tells { IfErr result (λ refused. IfSome (D.seen disk) (Tells refused.0)) }
    // Whatever the file is, that is answered, or a fault that lies elsewhere.
    ensures opened { (file : List ℕ) (reading : Reading) → D.seen disk ≡ Some file → ReadsAs calendar reading file
        → IfOk result (λ loaded. StandsAs (M.stands loaded.book) reading) }
    ensures refused { (file : List ℕ) (reading : Reading) → D.seen disk ≡ Some file → ReadsAs calendar reading file
        → IfErr result (λ refused. (is_told_as reading ≡ Some refused.0) ⊎ IsElsewhere refused.0) }

    ensures only_read { MatchResult result (λ loaded. OnlyRead D.seen D.image D.moment D.image_since disk loaded.disk)
        (λ refused. OnlyRead D.seen D.image D.moment D.image_since disk refused.1) }
    ensures later { MatchResult result (λ loaded. D.faults disk ≤ D.faults loaded.disk) (λ refused. D.faults disk ≤ D.faults refused.1) }
    ensures cause { IfErr result (λ refused. FromDisk (D.faults disk) (D.faults refused.1) refused.0) }
{
    let mut disk = disk;
    let mut book = empty;
    match read(alloc, &mut disk, &mut book, limit) {
        Ok(journal) => Ok(Loaded {
            book,
            journal,
            disk,
        }),
        Err(fault) => Err((fault, disk)),
    }
}
