use crate::samples::{End, FIRST, HEADER, ONE, disk_of, expect_records};
use journal_file::{Journal, NextFault, OpenFault};
use std::process::Abort;

fn joined<R: Abort + AllocGlobal>(rt: &R, parts: &[&[u8]]) -> Vec<u8> {
    let mut bytes = Vec::new(rt.alloc());
    for part in parts {
        bytes.extend_from_slice(part).expect(rt, "memory");
    }
    bytes
}

/// Asserts how a file of the header and these parts is read.
fn expect<R: Abort + AllocGlobal>(rt: &R, parts: &[&[u8]], payloads: &[&[u8]], end: End) {
    let rest = joined(rt, parts);
    let bytes = joined(rt, &[&HEADER, rest.as_slice()]);
    let mut disk = disk_of(rt, bytes.as_slice(), &[], u64::MAX);
    let _ = expect_records(rt, &mut disk, payloads, end);
    assert_eq!(rt; disk.faults(), 0);
}

/// The record of the first payload, with its gate.
const RECORD: [u8; 14] = [1, 0, 0, 0, 9, 1, 0, 0, 0, 0, 0, 0, 0, 0];

#[test]
fn hostile_journals(rt: HostRuntime) {
    let eight = [0; 8];
    expect(&rt, &[&[1, 0, 2, 0, 1], &[0x7f; 40]], &[], End::Bad(16));
    expect(&rt, &[&[1, 0, 0, 0, 9], &eight], &[], End::Bad(16));
    expect(&rt, &[&RECORD, &[0]], &[&FIRST], End::Closed);
    expect(
        &rt,
        &[&RECORD, &RECORD, &[0]],
        &[&FIRST, &FIRST],
        End::Closed,
    );
    expect(&rt, &[&RECORD, &[0], &[255; 1000]], &[&FIRST], End::Closed);
    expect(&rt, &[&RECORD], &[&FIRST], End::Bad(30));
    expect(
        &rt,
        &[&RECORD, &[1, 0, 0, 0, 9], &eight],
        &[&FIRST],
        End::Bad(30),
    );
    expect(&rt, &[&RECORD, &[1, 0, 0, 0]], &[&FIRST], End::Bad(30));
    expect(
        &rt,
        &[&RECORD, &[1, 0, 0, 0, 0, 0]],
        &[&FIRST],
        End::Bad(30),
    );
    expect(
        &rt,
        &[&RECORD, &[1, 255, 255, 255, 255, 0]],
        &[&FIRST],
        End::Bad(30),
    );
    expect(&rt, &[&RECORD, &[255]], &[&FIRST], End::Closed);
    expect(&rt, &[&[1]], &[], End::Bad(16));
    expect(&rt, &[], &[], End::Bad(16));
}

#[test]
fn a_record_of_the_greatest_length_is_read(rt: HostRuntime) {
    let mut payload = Vec::new(rt.alloc());
    payload.resize(131_072, 5).expect(&rt, "memory");
    expect(
        &rt,
        &[&[1, 0, 2, 0, 0], payload.as_slice(), &RECORD, &[0]],
        &[payload.as_slice(), &FIRST],
        End::Closed,
    );
    expect(
        &rt,
        &[&[1, 0, 2, 0, 0], &payload.as_slice()[1..]],
        &[],
        End::Bad(16),
    );
}

/// Asserts that these bytes are no journal, from the one at that offset on.
fn expect_no_journal<R: Abort + AllocGlobal>(rt: &R, bytes: &[u8], place: u64) {
    let mut disk = disk_of(rt, bytes, &[], u64::MAX);
    match Journal::open(&mut disk, 1000) {
        Err(OpenFault::NotAJournal { at }) => assert_eq!(rt; at, place),
        _ => assert!(rt; false),
    }
}

#[test]
fn files_that_are_no_journal(rt: HostRuntime) {
    expect_no_journal(&rt, &[], 0);
    expect_no_journal(&rt, &HEADER[..9], 9);
    expect_no_journal(&rt, &HEADER[..15], 15);
    expect_no_journal(&rt, b"SCHEDJNL\x02\x00\x00\x00\x00\x00\x00\x00\x00", 8);
    expect_no_journal(&rt, b"SCHEDJNL\x01\x00\x00\x00\x00\x00\x00\x01\x00", 15);
    expect_no_journal(&rt, b"schedjnl\x01\x00\x00\x00\x00\x00\x00\x00\x00", 0);
}

#[test]
fn each_call_of_an_opening_fails(rt: HostRuntime) {
    for call in 1..3 {
        let mut disk = disk_of(&rt, &ONE, &[call], u64::MAX);
        assert!(rt; matches!(Journal::open(&mut disk, 1000), Err(OpenFault::DiskFault)));
        assert_eq!(rt; disk.faults(), 1);
    }
}

#[test]
fn a_read_that_failed_is_repeated(rt: HostRuntime) {
    let mut disk = disk_of(&rt, &ONE, &[3], u64::MAX);
    let mut opening = Journal::open(&mut disk, 1000).expect(&rt, "a journal");
    let mut into = Vec::new(rt.alloc());
    assert_eq!(rt;
        opening.next(&mut disk, &mut into),
        Err(NextFault::DiskFault)
    );
    assert_eq!(rt; opening.next(&mut disk, &mut into), Ok(true));
    assert_eq!(rt; into.as_slice(), FIRST.as_slice());
    assert!(rt; !opening.is_closed());
    assert_eq!(rt; opening.next(&mut disk, &mut into), Ok(false));
    assert!(rt; opening.is_closed());
    assert_eq!(rt; disk.calls(), 5);
}
