//! Journals, frames and calls that the tests share.
ghost use Rattle.std.specs.Prelude.{◌≡◌, None, IfSome};

use disk_port::{Disk, MemDisk};
use journal_file::{AppendFault, Journal, NextFault};
use std::alloc::Global;
use std::process::Abort;

/// The sixteen bytes of a journal's header, as ASCII and numbers.
pub const HEADER: [u8; 16] = *b"SCHEDJNL\x01\x00\x00\x00\x00\x00\x00\x00";
/// The payload of the first record.
pub const FIRST: [u8; 9] = [1, 0, 0, 0, 0, 0, 0, 0, 0];
/// Its frame.
pub const FIRST_FRAME: [u8; 14] = [0, 0, 0, 9, 1, 0, 0, 0, 0, 0, 0, 0, 0, 0];
/// The payload of the second record.
pub const SECOND: [u8; 3] = [1, 1, 255];
/// Its frame.
pub const SECOND_FRAME: [u8; 8] = [0, 0, 0, 3, 1, 1, 255, 0];
/// A journal of the first record.
pub const ONE: [u8; 31] =
    *b"SCHEDJNL\x01\x00\x00\x00\x00\x00\x00\x00\x01\x00\x00\x00\x09\x01\x00\x00\x00\x00\x00\x00\x00\x00\x00";
/// How many bytes the journals of the tests may have.
pub const LIMIT: u64 = 1000;

/// A file in memory whose listed calls fail, and each from the stop on.
pub fn disk_of<R: Abort + AllocGlobal>(rt: &R, bytes: &[u8], fails: &[u64], stop: u64) -> MemDisk {
    let alloc: Global = rt.alloc();
    let fails = Vec::from_slice(alloc, fails).expect(rt, "memory");
    MemDisk::new(
        Vec::from_slice(alloc, bytes).expect(rt, "memory"),
        fails,
        stop,
    )
}

/// What reading a journal ends with.
#[derive(Clone, Copy, Debug, PartialEq, Eq)]
pub enum End {
    Closed,
    Bad(u64),
    Fault,
}

/// Asserts the payloads of a journal, in order, and how it ends; returns it where it ends at a closed gate.
pub fn expect_records<R: Abort + AllocGlobal, D: Disk>(
    rt: &R,
    disk: &mut D,
    payloads: &[&[u8]],
    end: End,
) -> Option<Journal>
    ensures { IfSome result (λ journal. journal.doubt ≡ None) }
{
    let mut opening = Journal::open(disk, LIMIT).expect(rt, "a journal");
    let mut into = Vec::new(rt.alloc());
    for payload in payloads {
        let more = opening.next(disk, &mut into).expect(rt, "a record");
        assert!(rt; more);
        assert_eq!(rt; into.as_slice(), *payload);
    }
    let found = match opening.next(disk, &mut into) {
        Ok(true) => None,
        Ok(false) => Some(End::Closed),
        Err(NextFault::BadRecord { at }) => Some(End::Bad(at)),
        Err(_) => Some(End::Fault),
    };
    assert_eq!(rt; found, Some(end));
    if opening.is_closed() {
        Some(opening.finish())
    } else {
        None
    }
}

/// The journal of a file of these payloads.
pub fn opened<R: Abort + AllocGlobal, D: Disk>(rt: &R, disk: &mut D, payloads: &[&[u8]]) -> Journal
    ensures { result.doubt ≡ None }
{
    expect_records(rt, disk, payloads, End::Closed).expect(rt, "a journal")
}

/// Appends the first record to a journal that is sound.
pub fn append_first<R: Abort, D: Disk>(
    rt: &R,
    journal: &mut Journal,
    disk: &mut D,
) -> Result<(), AppendFault> {
    assert!(rt; !journal.is_torn());
    journal.append(disk, &FIRST_FRAME, 0)
}

/// Appends the second record to a journal that is sound.
pub fn append_second<R: Abort, D: Disk>(
    rt: &R,
    journal: &mut Journal,
    disk: &mut D,
) -> Result<(), AppendFault> {
    assert!(rt; !journal.is_torn());
    journal.append(disk, &SECOND_FRAME, 0)
}
