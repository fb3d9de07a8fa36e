//! Each field of a payload at both ends of what it may be, and beyond.
use crate::parts::Part::{self, Date, Eight, Four, One, Pieces, Raw, S1, S2, S4, Two};
use crate::parts::put;
use crate::samples::{
    BEGIN, BOOT, CLOSE, COMPLETE, CREATION, END, ENTER, GROUP_CREATION, GROUP_DELETION, LAST_LEASE,
    LEASE, RELEASE, SWEPT, ZONE,
};
use sched_plain::LAST_MOMENT;
use std::alloc::Global;
use std::test::Fail;
use step_codec::{StepFault, read_step};

/// A payload, one of its fields, what stands there in its place, and whether that keeps the field's rule.
type Row<'a> = (&'a [Part<'a>], usize, Part<'a>, bool);

/// The fields of changes.
const CHANGED: [Row<'static>; 79] = [
    (&CREATION, 1, Eight(0), true),
    (&CREATION, 1, Eight(LAST_MOMENT), true),
    (&CREATION, 1, Eight(7_258_118_400), false),
    (&CREATION, 2, One(2), true),
    (&CREATION, 2, One(0), false),
    (&CREATION, 2, One(6), false),
    (&CREATION, 3, S1(""), true),
    (&CREATION, 3, Pieces(1, "t", 64), true),
    (&CREATION, 3, Pieces(1, "t", 65), false),
    (&CREATION, 3, S1("a.b"), false),
    (&CREATION, 4, S1("n"), true),
    (&CREATION, 4, Pieces(1, "n", 64), true),
    (&CREATION, 4, S1(""), false),
    (&CREATION, 4, Pieces(1, "n", 65), false),
    (&CREATION, 4, S1("a b"), false),
    (&CREATION, 5, S1("n"), true),
    (&CREATION, 5, Pieces(1, "n", 64), true),
    (&CREATION, 5, S1(""), false),
    (&CREATION, 5, Pieces(1, "n", 65), false),
    (&CREATION, 5, S1("a b"), false),
    (&GROUP_CREATION, 5, S1("a"), false),
    (&GROUP_DELETION, 5, S1("a"), false),
    (&CREATION, 6, S2(""), true),
    (&CREATION, 6, Pieces(2, "\u{1F600}", 512), true),
    (&CREATION, 6, Pieces(2, "\u{1F600}", 513), false),
    (&CREATION, 6, Raw(&[0, 1, 255]), false),
    (&CREATION, 7, S2("at(2030-01-01T00:00:00)"), true),
    (&CREATION, 7, S2(""), false),
    (&CREATION, 7, S2("rate(0 hours)"), false),
    (&CREATION, 7, Pieces(2, "r", 257), false),
    (&CREATION, 8, S1("a"), true),
    (&CREATION, 8, Pieces(1, "z", 50), true),
    (&CREATION, 8, S1(""), false),
    (&CREATION, 8, Pieces(1, "z", 51), false),
    (&CREATION, 9, Date(None), true),
    (&CREATION, 9, Date(Some(0)), true),
    (&CREATION, 9, Date(Some(LAST_MOMENT)), true),
    (&CREATION, 9, Date(Some(7_258_118_400)), false),
    (&CREATION, 9, Raw(&[2]), false),
    (&CREATION, 10, Date(None), true),
    (&CREATION, 10, Date(Some(0)), true),
    (&CREATION, 10, Date(Some(LAST_MOMENT)), true),
    (&CREATION, 10, Date(Some(7_258_118_400)), false),
    (&CREATION, 10, Raw(&[2]), false),
    (&CREATION, 11, One(0), true),
    (&CREATION, 11, One(1), true),
    (&CREATION, 11, One(2), false),
    (&CREATION, 11, One(255), false),
    (&CREATION, 12, One(0), true),
    (&CREATION, 12, One(1), true),
    (&CREATION, 12, One(2), false),
    (&CREATION, 12, One(255), false),
    (&CREATION, 13, Two(0), true),
    (&CREATION, 13, Two(1440), true),
    (&CREATION, 13, Two(1441), false),
    (&CREATION, 13, Two(u16::MAX), false),
    (&CREATION, 14, One(0), true),
    (&CREATION, 14, One(185), true),
    (&CREATION, 14, One(186), false),
    (&CREATION, 14, One(255), false),
    (&CREATION, 15, Four(60), true),
    (&CREATION, 15, Four(86_400), true),
    (&CREATION, 15, Four(59), false),
    (&CREATION, 15, Four(86_401), false),
    (&CREATION, 16, S2("a"), true),
    (&CREATION, 16, Pieces(2, "\u{1F600}", 1600), true),
    (&CREATION, 16, S2(""), false),
    (&CREATION, 16, Pieces(2, "\u{1F600}", 1601), false),
    (&CREATION, 17, S2("a"), true),
    (&CREATION, 17, Pieces(2, "\u{1F600}", 1600), true),
    (&CREATION, 17, S2(""), false),
    (&CREATION, 17, Pieces(2, "\u{1F600}", 1601), false),
    (&CREATION, 18, S2(""), true),
    (&CREATION, 18, Pieces(2, "\u{1F600}", 1600), true),
    (&CREATION, 18, Pieces(2, "\u{1F600}", 1601), false),
    (&CREATION, 19, S4(""), true),
    (&CREATION, 19, Pieces(4, "x", 65_536), true),
    (&CREATION, 19, Pieces(4, "x", 65_537), false),
    (&CREATION, 19, Raw(&[0, 0, 0, 1, 255]), false),
];

/// The fields of the other kinds.
const OTHER: [Row<'static>; 95] = [
    (&BOOT, 1, Eight(0), true),
    (&BOOT, 1, Eight(LAST_MOMENT), true),
    (&BOOT, 1, Eight(7_258_118_400), false),
    (&BOOT, 1, Eight(u64::MAX), false),
    (&ZONE, 2, S1("a"), true),
    (&ZONE, 2, Pieces(1, "z", 50), true),
    (&ZONE, 2, S1(""), false),
    (&ZONE, 2, Pieces(1, "z", 51), false),
    (&ZONE, 2, S1("/a"), false),
    (&ZONE, 3, S4(""), true),
    (&ZONE, 3, Pieces(4, "z", 65_536), true),
    (&ZONE, 3, Pieces(4, "z", 65_537), false),
    (&ENTER, 2, Four(1), true),
    (&ENTER, 2, Four(u32::MAX), true),
    (&ENTER, 2, Four(0), false),
    (&ENTER, 3, Two(0), false),
    (&ENTER, 3, Two(257), false),
    (&ENTER, 4, Eight(0), true),
    (&ENTER, 4, Eight(LAST_MOMENT), true),
    (&ENTER, 4, Eight(7_258_118_400), false),
    (&ENTER, 5, Four(0), true),
    (&ENTER, 5, Four(86_399), true),
    (&ENTER, 5, Four(86_400), false),
    (&ENTER, 6, Eight(0), true),
    (&ENTER, 6, Eight(LAST_MOMENT), true),
    (&ENTER, 6, Eight(7_258_118_400), false),
    (&ENTER, 7, Four(86_399), true),
    (&ENTER, 7, Four(86_400), false),
    (&LEASE, 2, One(0), true),
    (&LEASE, 2, One(7), true),
    (&LEASE, 2, One(8), false),
    (&LEASE, 2, One(255), false),
    (&LEASE, 3, Four(0), true),
    (&LEASE, 3, Four(u32::MAX), true),
    (&LEASE, 4, Eight(0), true),
    (&LEASE, 4, Eight(u64::MAX), true),
    (&LEASE, 5, Eight(1059), false),
    (&LEASE, 5, Eight(1061), false),
    (&LAST_LEASE, 5, Eight(7_258_118_459), true),
    (&LAST_LEASE, 5, Eight(LAST_MOMENT), false),
    (&RELEASE, 2, One(0), true),
    (&RELEASE, 2, One(7), true),
    (&RELEASE, 2, One(8), false),
    (&RELEASE, 2, One(255), false),
    (&RELEASE, 3, Four(0), true),
    (&RELEASE, 3, Four(u32::MAX), true),
    (&RELEASE, 4, Eight(0), true),
    (&RELEASE, 4, Eight(u64::MAX), true),
    (&BEGIN, 2, Four(1), true),
    (&BEGIN, 2, Four(u32::MAX), true),
    (&BEGIN, 2, Four(0), false),
    (&BEGIN, 3, Eight(0), true),
    (&BEGIN, 3, Eight(LAST_MOMENT), true),
    (&BEGIN, 3, Eight(7_258_118_400), false),
    (&BEGIN, 4, Two(1), true),
    (&BEGIN, 4, Two(u16::MAX), true),
    (&BEGIN, 4, Two(0), false),
    (&BEGIN, 5, Eight(0), true),
    (&BEGIN, 5, Eight(u64::MAX), true),
    (&END, 2, Four(1), true),
    (&END, 2, Four(u32::MAX), true),
    (&END, 2, Four(0), false),
    (&END, 3, Eight(0), true),
    (&END, 3, Eight(LAST_MOMENT), true),
    (&END, 3, Eight(7_258_118_400), false),
    (&END, 4, Two(1), true),
    (&END, 4, Two(u16::MAX), true),
    (&END, 4, Two(0), false),
    (&END, 5, One(1), true),
    (&END, 5, One(3), true),
    (&END, 5, One(0), false),
    (&END, 5, One(4), false),
    (&END, 6, Two(0), true),
    (&END, 6, Two(100), true),
    (&END, 6, Two(999), true),
    (&END, 6, Two(1), false),
    (&END, 6, Two(99), false),
    (&END, 6, Two(1000), false),
    (&CLOSE, 2, Four(1), true),
    (&CLOSE, 2, Four(u32::MAX), true),
    (&CLOSE, 2, Four(0), false),
    (&CLOSE, 3, Eight(0), true),
    (&CLOSE, 3, Eight(LAST_MOMENT), true),
    (&CLOSE, 3, Eight(7_258_118_400), false),
    (&CLOSE, 4, One(1), true),
    (&CLOSE, 4, One(2), true),
    (&CLOSE, 4, One(0), false),
    (&CLOSE, 4, One(3), false),
    (&COMPLETE, 2, Four(1), true),
    (&COMPLETE, 2, Four(u32::MAX), true),
    (&COMPLETE, 2, Four(0), false),
    (&SWEPT, 2, One(0), true),
    (&SWEPT, 2, One(7), true),
    (&SWEPT, 2, One(8), false),
    (&SWEPT, 2, One(255), false),
];

/// Whether a row is answered as it says: with no fault, or with one at the place of its field.
fn is_so(alloc: Global, row: Row) -> Result<bool, Fail> {
    let (parts, field, changed, good) = row;
    let mut payload = Vec::new(alloc);
    let mut at = 0;
    for (number, part) in parts.iter().enumerate() {
        if number == field {
            at = payload.len();
            put(&mut payload, changed)?;
        } else {
            put(&mut payload, *part)?;
        }
    }
    let wanted = if good {
        None
    } else {
        Some(StepFault::BadField { at })
    };
    Ok(read_step(alloc, payload.as_slice()).err() == wanted)
}

/// The first row that is answered otherwise.
fn first_otherwise(alloc: Global, rows: &[Row]) -> Result<Option<usize>, Fail> {
    for (number, row) in rows.iter().enumerate() {
        if !is_so(alloc, *row)? {
            return Ok(Some(number));
        }
    }
    Ok(None)
}

#[test]
fn fields_of_changes_end_where_they_end(rt: HostRuntime) -> Result<(), Fail> {
    assert_eq!(rt; first_otherwise(rt.alloc(), &CHANGED)?, None);
    Ok(())
}

#[test]
fn fields_of_other_kinds_end_where_they_end(rt: HostRuntime) -> Result<(), Fail> {
    assert_eq!(rt; first_otherwise(rt.alloc(), &OTHER)?, None);
    Ok(())
}
