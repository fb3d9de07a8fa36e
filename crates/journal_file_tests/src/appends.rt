ghost use Rattle.std.specs.Prelude.{◌<◌, ◌^◌};

use crate::samples::{
    End, FIRST, FIRST_FRAME, LIMIT, ONE, SECOND, append_first, append_second, disk_of,
    expect_records, opened,
};
use disk_port::{Disk, MemDisk};
use journal_file::{AppendFault, DiskFault, InitFault, Journal, init};
use std::alloc::Global;
use std::process::Abort;

/// How many calls of the disk it takes to open a journal of one record and to read it: a sync, the header, the records, and
/// once more the last gate, behind which the file may have grown.
const OPENING: u64 = 4;

#[test]
fn a_journal_is_begun_once(rt: HostRuntime) {
    let mut disk = disk_of(&rt, &[], &[], u64::MAX);
    assert_eq!(rt; init(&mut disk), Ok(()));
    assert_eq!(rt; disk.bytes(), ONE_EMPTY.as_slice());
    let image = disk.image(0, 255).expect(&rt, "memory");
    assert_eq!(rt; image.as_slice(), ONE_EMPTY.as_slice());
    assert_eq!(rt; init(&mut disk), Err(InitFault::NotEmpty { len: 17 }));
    assert_eq!(rt; disk.bytes(), ONE_EMPTY.as_slice());
    assert_eq!(rt; disk.calls(), 4);
}

/// A journal without a record.
const ONE_EMPTY: [u8; 17] = *b"SCHEDJNL\x01\x00\x00\x00\x00\x00\x00\x00\x00";

#[test]
fn each_call_of_a_beginning_fails(rt: HostRuntime) {
    for call in 1..4 {
        let mut disk = disk_of(&rt, &[], &[call], u64::MAX);
        assert_eq!(rt; init(&mut disk), Err(InitFault::DiskFault));
        assert_eq!(rt; disk.faults(), 1);
    }
}

#[test]
fn a_record_is_appended_by_four_calls(rt: HostRuntime) {
    let mut disk = disk_of(&rt, &ONE_EMPTY, &[], u64::MAX);
    let mut journal = opened(&rt, &mut disk, &[]);
    assert_eq!(rt; (journal.end(), journal.limit()), (16, LIMIT));
    let before = disk.calls();
    assert_eq!(rt; append_first(&rt, &mut journal, &mut disk), Ok(()));
    assert_eq!(rt; disk.calls().wrapping_sub(before), 4);
    assert_eq!(rt; disk.bytes(), ONE.as_slice());
    assert_eq!(rt; journal.end(), 30);
    assert_eq!(rt; append_second(&rt, &mut journal, &mut disk), Ok(()));
    assert_eq!(rt; journal.end(), 38);
    let _ = expect_records(&rt, &mut disk, &[&FIRST, &SECOND], End::Closed);
}

/// Asserts that each image of the file holds the first record alone, or where it may both.
fn expect_images<R: Abort + AllocGlobal>(rt: &R, disk: &MemDisk, one: bool, both: bool) {
    for fill in [0, 1, 255] {
        for keep in 0..3 {
            let image = disk.image(keep, fill).expect(rt, "memory");
            let holds_both = image.len() > 30 && image[30] == 1;
            assert!(rt; if holds_both { both } else { one });
            let mut left = disk_of(rt, image.as_slice(), &[], u64::MAX);
            if holds_both {
                let _ = opened(rt, &mut left, &[&FIRST, &SECOND]);
            } else {
                let _ = opened(rt, &mut left, &[&FIRST]);
            }
        }
    }
}

#[test]
fn an_append_is_stopped_before_each_call(rt: HostRuntime) {
    for call in 1..6 {
        let mut disk = disk_of(&rt, &ONE, &[], OPENING + call);
        let mut journal = opened(&rt, &mut disk, &[&FIRST]);
        let wanted = if call < 5 {
            Err(AppendFault::DiskFault)
        } else {
            Ok(())
        };
        assert_eq!(rt;
            append_second(&rt, &mut journal, &mut disk),
            wanted,
            "call {call}"
        );
        assert_eq!(rt; journal.is_torn(), call < 5);
        expect_images(&rt, &disk, call < 5, 4 <= call);
        let mut both_kept = disk_of(&rt, disk.bytes(), &[], u64::MAX);
        if call < 4 {
            let _ = opened(&rt, &mut both_kept, &[&FIRST]);
        } else {
            let _ = opened(&rt, &mut both_kept, &[&FIRST, &SECOND]);
        }
    }
}

/// Settles the record in doubt.
fn settle<R: Abort, D: Disk>(
    rt: &R,
    journal: &mut Journal,
    disk: &mut D,
) -> Result<bool, DiskFault> {
    assert!(rt; journal.is_torn());
    journal.settle(disk)
}

#[test]
fn each_call_of_an_append_fails_once(rt: HostRuntime) {
    for call in 1..5 {
        let mut disk = disk_of(&rt, &ONE, &[OPENING + call], u64::MAX);
        let mut journal = opened(&rt, &mut disk, &[&FIRST]);
        assert_eq!(rt;
            append_second(&rt, &mut journal, &mut disk),
            Err(AppendFault::DiskFault)
        );
        assert_eq!(rt; journal.end(), 30);
        assert_eq!(rt;
            settle(&rt, &mut journal, &mut disk),
            Ok(call == 4),
            "call {call}"
        );
        assert_eq!(rt; disk.faults(), 1);
        let end = if call == 4 { 38 } else { 30 };
        assert_eq!(rt; journal.end(), end);
        assert_eq!(rt; append_second(&rt, &mut journal, &mut disk), Ok(()));
        if call == 4 {
            let _ = opened(&rt, &mut disk, &[&FIRST, &SECOND, &SECOND]);
        } else {
            let _ = opened(&rt, &mut disk, &[&FIRST, &SECOND]);
        }
    }
}

#[test]
fn a_settling_fails_and_is_repeated(rt: HostRuntime) {
    for call in 5..7 {
        let mut disk = disk_of(&rt, &ONE, &[OPENING + 4, OPENING + call], u64::MAX);
        let mut journal = opened(&rt, &mut disk, &[&FIRST]);
        assert_eq!(rt;
            append_second(&rt, &mut journal, &mut disk),
            Err(AppendFault::DiskFault)
        );
        assert_eq!(rt; settle(&rt, &mut journal, &mut disk), Err(DiskFault));
        assert_eq!(rt; settle(&rt, &mut journal, &mut disk), Ok(true));
        let _ = opened(&rt, &mut disk, &[&FIRST, &SECOND]);
    }
}

/// Asserts what an append to a journal of one record answers under a limit.
fn expect_under_limit<R: Abort + AllocGlobal>(
    rt: &R,
    limit: u64,
    reserve: u64,
    wanted: Result<(), AppendFault>,
)
    requires { reserve < 2 ^ 32 }
{
    let alloc: Global = rt.alloc();
    let mut disk = disk_of(rt, &ONE_EMPTY, &[], u64::MAX);
    let mut opening = Journal::open(&mut disk, limit).expect(rt, "a journal");
    let mut into = Vec::new(alloc);
    assert_eq!(rt; opening.next(&mut disk, &mut into).is_ok(), true);
    assert!(rt; opening.is_closed());
    let mut journal = opening.finish();
    let before = disk.calls();
    assert_eq!(rt; journal.append(&mut disk, &FIRST_FRAME, reserve), wanted);
    if wanted.is_err() {
        assert_eq!(rt; disk.calls(), before);
        assert_eq!(rt; disk.bytes(), ONE_EMPTY.as_slice());
    }
}

#[test]
fn a_journal_is_full_exactly_past_its_limit(rt: HostRuntime) {
    let full = |need: u64| Err(AppendFault::Full { end: 16, need });
    expect_under_limit(&rt, 31, 0, Ok(()));
    expect_under_limit(&rt, 30, 0, full(15));
    expect_under_limit(&rt, 62, 31, Ok(()));
    expect_under_limit(&rt, 61, 31, full(46));
    expect_under_limit(&rt, 15, 0, full(15));
    expect_under_limit(&rt, 0, 0, full(15));
    expect_under_limit(&rt, u64::MAX, 31, Ok(()));
}
