use crate::samples::{Clock, LORD_HOWE, NEW_YORK, SMALL, assert_civil, civil, zone_of};
use std::process::Abort;
use zone_occ::{Zone, conv};

/// What a clock shows, and the instant when it first does.
type Row = (Clock, Option<i64>);

/// Compares the instants of a zone with the table.
fn compare(rt: &impl Abort, zone: &Zone, rows: &[Row]) {
    for (clock, instant) in rows {
        let ((year, month, day), (hour, minute, second)) = *clock;
        let d = civil(*clock);
        assert_civil(rt, d);
        assert_eq!(rt;
            conv(zone, d),
            *instant,
            "{year}-{month}-{day} {hour}:{minute}:{second}"
        );
    }
}

// The expected instants are those of Python's zoneinfo: its first fold, and nothing where the round trip fails.

#[test]
fn utc(rt: HostRuntime) {
    let rows: [Row; 3] = [
        (((1970, 1, 1), (0, 0, 0)), Some(0)),
        (((2026, 3, 8), (2, 30, 0)), Some(1772937000)),
        (((2199, 12, 31), (23, 59, 59)), Some(7258118399)),
    ];
    compare(&rt, &Zone::utc(), &rows);
}

const IN_NEW_YORK: [Row; 6] = [
    (((2026, 3, 8), (1, 59, 59)), Some(1772953199)),
    (((2026, 3, 8), (2, 30, 0)), None),
    (((2026, 3, 8), (3, 0, 0)), Some(1772953200)),
    (((2026, 11, 1), (0, 59, 59)), Some(1793509199)),
    (((2026, 11, 1), (1, 30, 0)), Some(1793511000)),
    (((2026, 11, 1), (2, 0, 0)), Some(1793516400)),
];

const WITHOUT_SUMMER_TIME: [Row; 3] = [
    (((1970, 1, 1), (0, 0, 0)), Some(-32400)),
    (((2026, 7, 1), (9, 0, 0)), Some(1782864000)),
    (((2199, 12, 31), (23, 59, 59)), Some(7258085999)),
];

const IN_THE_SOUTHERN_HALF: [Row; 6] = [
    (((1970, 1, 1), (0, 0, 0)), Some(-39600)),
    (((2026, 1, 15), (12, 0, 0)), Some(1768438800)),
    (((2026, 4, 5), (2, 30, 0)), Some(1775316600)),
    (((2026, 7, 1), (12, 0, 0)), Some(1782871200)),
    (((2026, 10, 4), (2, 30, 0)), None),
    (((2199, 12, 31), (23, 59, 59)), Some(7258078799)),
];

const HALF_AN_HOUR: [Row; 6] = [
    (((2026, 4, 5), (1, 29, 59)), Some(1775312999)),
    (((2026, 4, 5), (1, 30, 0)), Some(1775313000)),
    (((2026, 4, 5), (2, 0, 0)), Some(1775316600)),
    (((2026, 10, 4), (1, 59, 59)), Some(1791041399)),
    (((2026, 10, 4), (2, 15, 0)), None),
    (((2026, 10, 4), (2, 30, 0)), Some(1791041400)),
];

const TWO_HOURS: [Row; 7] = [
    (((2026, 3, 8), (1, 59, 59)), Some(1772935199)),
    (((2026, 3, 8), (2, 0, 0)), None),
    (((2026, 3, 8), (3, 59, 59)), None),
    (((2026, 3, 8), (4, 0, 0)), Some(1772935200)),
    (((2026, 11, 1), (0, 0, 0)), Some(1793484000)),
    (((2026, 11, 1), (1, 59, 59)), Some(1793491199)),
    (((2026, 11, 1), (2, 0, 0)), Some(1793498400)),
];

const WINTER_TIME_BEHIND: [Row; 6] = [
    (((2026, 3, 29), (0, 59, 59)), Some(1774745999)),
    (((2026, 3, 29), (1, 30, 0)), None),
    (((2026, 3, 29), (2, 0, 0)), Some(1774746000)),
    (((2026, 10, 25), (0, 59, 59)), Some(1792886399)),
    (((2026, 10, 25), (1, 30, 0)), Some(1792888200)),
    (((2026, 10, 25), (2, 0, 0)), Some(1792893600)),
];

const OF_A_TABLE: [Row; 12] = [
    (((1970, 1, 1), (0, 0, 0)), Some(-3600)),
    (((2001, 9, 9), (2, 46, 39)), Some(999999999)),
    (((2001, 9, 9), (2, 46, 40)), None),
    (((2001, 9, 9), (3, 46, 39)), None),
    (((2001, 9, 9), (3, 46, 40)), Some(1000000000)),
    (((2004, 11, 9), (12, 33, 19)), Some(1099996399)),
    (((2004, 11, 9), (12, 33, 20)), Some(1099996400)),
    (((2004, 11, 9), (13, 33, 19)), Some(1099999999)),
    (((2004, 11, 9), (13, 33, 20)), Some(1100003600)),
    (((2026, 3, 29), (2, 30, 0)), None),
    (((2026, 10, 25), (2, 30, 0)), Some(1792888200)),
    (((2199, 12, 31), (23, 59, 59)), Some(7258114799)),
];

#[test]
fn rules_and_a_table(rt: HostRuntime) {
    let zones: [(&[u8], &[Row]); 7] = [
        (NEW_YORK, &IN_NEW_YORK),
        (b"JST-9", &WITHOUT_SUMMER_TIME),
        (b"AEST-10AEDT,M10.1.0,M4.1.0/3", &IN_THE_SOUTHERN_HALF),
        (LORD_HOWE, &HALF_AN_HOUR),
        (b"XXX0YYY-2,M3.2.0,M11.1.0", &TWO_HOURS),
        (b"IST-1GMT0,M10.5.0,M3.5.0/1", &WINTER_TIME_BEHIND),
        (SMALL, &OF_A_TABLE),
    ];
    for (bytes, rows) in zones {
        compare(&rt, &zone_of(&rt, bytes), rows);
    }
}
