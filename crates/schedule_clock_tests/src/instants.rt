use crate::contents::{Given, content_of};
use plain_words::{LAST_MOMENT, Moment};
use schedule_clock::{instants, next_instant};
use std::process::Abort;
use zone_occ::Zone;

/// The rule of New York.
const NEW_YORK: &[u8] = b"EST5EDT,M3.2.0,M11.1.0";

/// 2026-11-01T05:30:00Z, which a clock in New York shows as 01:30 before it shows that again.
const IN_A_FOLD: u64 = 1_793_511_000;

/// When each schedule is created.
const CREATED: Moment = Moment(1000);

/// The most instants that are asked for at once.
const MOST: u16 = 3;

/// A content, and from which to which moment its instants are asked for.
type Asked<'a> = (Given<'a>, (u64, u64));

/// An expression alone, enabled and without dates.
const fn plain(text: &[u8]) -> Given {
    Given {
        text,
        start: None,
        finish: None,
        enabled: true,
    }
}

/// An expression with its dates.
const fn dated(text: &[u8], start: Option<u64>, finish: Option<u64>) -> Given {
    Given {
        start,
        finish,
        ..plain(text)
    }
}

/// The instant, where it comes by a moment.
fn come_by(instant: Option<u64>, by: u64) -> Option<u64> {
    match instant {
        Some(instant) => if instant <= by { Some(instant) } else { None },
        None => None,
    }
}

/// Compares the instants of a span, and the next one from its beginning on, with the wanted ones.
fn compare<R: Abort + AllocGlobal>(rt: &R, zone: &Zone, asked: Asked, wanted: &[u64]) {
    let (given, (from, to)) = asked;
    let content = content_of(rt.alloc(), given).expect(rt, "a content");
    let found = instants(rt.alloc(), &content, zone, CREATED, from, to, MOST).expect(rt, "memory");
    let next = come_by(next_instant(&content, zone, CREATED, from), to);
    assert_eq!(rt; found.as_slice(), wanted, "{from} {to}");
    assert_eq!(rt; next, wanted.first().copied(), "{from} {to}");
}

fn in_new_york<R: Abort + AllocGlobal>(rt: &R) -> Zone {
    Zone::read(rt.alloc(), NEW_YORK).expect(rt, "a zone")
}

#[test]
fn a_rate_counts_from_the_creation(rt: HostRuntime) {
    let hourly = plain(b"rate(1 hours)");
    let rows: [(Asked, &[u64]); 6] = [
        ((hourly, (0, 4600)), &[1000, 4600]),
        ((hourly, (0, 4599)), &[1000]),
        ((hourly, (1001, 4600)), &[4600]),
        ((hourly, (1001, 4599)), &[]),
        ((hourly, (0, u64::MAX)), &[1000, 4600, 8200]),
        ((hourly, (LAST_MOMENT + 1, u64::MAX)), &[]),
    ];
    for (asked, wanted) in rows {
        compare(&rt, &Zone::utc(), asked, wanted);
    }
}

#[test]
fn dates_bound_a_rate(rt: HostRuntime) {
    let text = b"rate(2 hours)";
    let both = dated(text, Some(5000), Some(19_400));
    let rows: [(Asked, &[u64]); 6] = [
        ((both, (0, LAST_MOMENT)), &[5000, 12_200, 19_400]),
        ((both, (5001, 19_399)), &[12_200]),
        ((both, (19_401, LAST_MOMENT)), &[]),
        ((dated(text, None, Some(8199)), (0, LAST_MOMENT)), &[1000]),
        (
            (dated(text, None, Some(8200)), (0, LAST_MOMENT)),
            &[1000, 8200],
        ),
        ((dated(text, Some(6000), Some(5000)), (0, LAST_MOMENT)), &[]),
    ];
    for (asked, wanted) in rows {
        compare(&rt, &Zone::utc(), asked, wanted);
    }
}

#[test]
fn a_cron_goes_by_its_zone(rt: HostRuntime) {
    let in_a_gap = plain(b"cron(30 2 * * ? *)");
    let in_a_fold = b"cron(30 1 * * ? *)";
    let autumn = (1_793_491_200, 1_793_664_000);
    let rows: [(Asked, &[u64]); 4] = [
        (
            (in_a_gap, (1_772_841_600, 1_773_037_800)),
            &[1_772_868_600, 1_773_037_800],
        ),
        ((plain(in_a_fold), autumn), &[IN_A_FOLD, 1_793_601_000]),
        (
            (dated(in_a_fold, None, Some(IN_A_FOLD)), autumn),
            &[IN_A_FOLD],
        ),
        (
            (dated(in_a_fold, Some(IN_A_FOLD + 1), None), autumn),
            &[1_793_601_000],
        ),
    ];
    for (asked, wanted) in rows {
        compare(&rt, &in_new_york(&rt), asked, wanted);
    }
}

#[test]
fn dates_do_not_bound_an_at(rt: HostRuntime) {
    let text = b"at(2026-11-01T01:30:00)";
    let rows: [(Asked, &[u64]); 4] = [
        ((dated(text, None, Some(0)), (0, LAST_MOMENT)), &[IN_A_FOLD]),
        (
            (
                dated(text, Some(IN_A_FOLD + 1), None),
                (IN_A_FOLD, IN_A_FOLD),
            ),
            &[IN_A_FOLD],
        ),
        ((plain(text), (IN_A_FOLD + 1, LAST_MOMENT)), &[]),
        ((plain(text), (0, IN_A_FOLD - 1)), &[]),
    ];
    for (asked, wanted) in rows {
        compare(&rt, &in_new_york(&rt), asked, wanted);
    }
}

#[test]
fn a_disabled_content_never_acts(rt: HostRuntime) {
    let texts: [&[u8]; 3] = [
        b"rate(1 hours)",
        b"cron(30 1 * * ? *)",
        b"at(2026-11-01T01:30:00)",
    ];
    for text in texts {
        let given = Given {
            enabled: false,
            ..plain(text)
        };
        compare(&rt, &Zone::utc(), (given, (0, LAST_MOMENT)), &[]);
    }
}
