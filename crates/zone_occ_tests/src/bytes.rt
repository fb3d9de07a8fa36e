use crate::samples::{NEW_YORK, SMALL};
use std::process::Abort;
use zone_occ::{Zone, ZoneFault};

/// The most bytes of a zone.
const LIMIT: usize = 65_536;

/// Asserts why the bytes are no zone, or that they are one.
fn expect<R: Abort + AllocGlobal>(rt: &R, bytes: &[u8], wanted: Option<ZoneFault>) {
    let len = bytes.len();
    assert_eq!(rt; Zone::read(rt.alloc(), bytes).err(), wanted, "{len} bytes");
}

#[test]
fn not_a_zone(rt: HostRuntime) {
    let small = SMALL.as_slice();
    let rows: [&[u8]; 12] = [
        b"",
        b"TZif",
        &small[..159],
        &small[1..],
        b"EST5EDT",
        b"EST5EDT,M3.2.0",
        b"EST5EDT,M3.2.0,M11.1.\xff",
        b"EST5EDT,M13.2.0,M11.1.0",
        b" EST5EDT,M3.2.0,M11.1.0",
        b"EST5EDT,M3.2.0,M11.1.0\n",
        b"EST25EDT,M3.2.0,M11.1.0",
        b"TZif5EDT,M3.2.0,M11.1.0",
    ];
    for bytes in rows {
        expect(&rt, bytes, Some(ZoneFault::NotAZone));
    }
    expect(&rt, NEW_YORK, None);
    expect(&rt, SMALL, None);
}

#[test]
fn rule_that_disagrees_with_the_table(rt: HostRuntime) {
    let mut bytes = *SMALL;
    // The rule's standard time is two hours ahead in place of one.
    assert_eq!(rt; bytes[138], b'1');
    bytes[138] = b'2';
    expect(&rt, &bytes, Some(ZoneFault::NotAZone));
}

/// Asserts why the bytes with so many of one byte behind them are no zone, or that they are one.
fn expect_padded<R: Abort + AllocGlobal>(
    rt: &R,
    bytes: &[u8],
    len: usize,
    byte: u8,
    wanted: Option<ZoneFault>,
) {
    let mut padded = Vec::from_slice(rt.alloc(), bytes).expect(rt, "memory");
    padded.resize(len, byte).expect(rt, "memory");
    expect(rt, padded.as_slice(), wanted);
}

#[test]
fn too_long(rt: HostRuntime) {
    // What follows the rule of a zone file is not read.
    let rows: [(&[u8], usize, u8, Option<ZoneFault>); 4] = [
        (NEW_YORK, LIMIT, b' ', Some(ZoneFault::NotAZone)),
        (
            NEW_YORK,
            LIMIT + 1,
            b' ',
            Some(ZoneFault::TooLong { len: 65_537 }),
        ),
        (SMALL, LIMIT, 0, None),
        (
            SMALL,
            LIMIT + 1,
            0,
            Some(ZoneFault::TooLong { len: 65_537 }),
        ),
    ];
    for (bytes, len, byte, wanted) in rows {
        expect_padded(&rt, bytes, len, byte, wanted);
    }
}
