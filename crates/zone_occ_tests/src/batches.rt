use crate::samples::{
    DAILY_AT_1_30, DAILY_AT_2_30, EVERY_MINUTE, HOURLY, IN_NO_YEAR, LONGEST_RATE, NEW_YORK,
    assert_searchable, civil, zone_of,
};
use expressions::{CronSets, Expr, Unit};
use plain_words::LAST_MOMENT;
use std::process::Abort;
use zone_occ::{Zone, next_after, occurrences};

/// An expression, where a rate starts, from and to which moment, and at most how many instants.
type Asked = (Expr, u64, (u64, u64), u16);

/// The first instants, and how far they are complete.
type Wanted<'a> = (&'a [u64], u64);

/// Compares the first instants in a zone with the table.
fn compare<R: Abort + AllocGlobal>(rt: &R, zone: &Zone, rows: &[(Asked, Wanted)]) {
    for (asked, wanted) in rows {
        let (expr, anchor, (from, to), max) = *asked;
        let (instants, complete_to) = *wanted;
        assert_searchable(rt, &expr);
        assert!(rt; to <= LAST_MOMENT && max >= 1);
        let batch = occurrences(rt.alloc(), &expr, zone, anchor, from, to, max).expect(
            rt, "memory",
        );
        assert_eq!(rt;
            batch.instants.as_slice(),
            instants,
            "{expr:?} {from} {to} {max}"
        );
        assert_eq!(rt;
            batch.complete_to,
            complete_to,
            "{expr:?} {from} {to} {max}"
        );
    }
}

#[test]
fn a_gap_and_a_fold(rt: HostRuntime) {
    let in_a_gap = Expr::Cron(DAILY_AT_2_30);
    let in_a_fold = Expr::Cron(DAILY_AT_1_30);
    let minutes = Expr::Cron(EVERY_MINUTE);
    let once = Expr::At(civil(((2026, 11, 1), (1, 30, 0))));
    let spring = (1772841600, 1773037800);
    let autumn = (1793491200, 1793664000);
    let both = [1772868600, 1773037800];
    let two_days = [1793511000, 1793601000];
    let four_minutes = [1793512680, 1793512740, 1793516400, 1793516460];
    let rows: [(Asked, Wanted); 10] = [
        ((in_a_gap, 0, spring, 256), (&both, 1773037800)),
        ((in_a_gap, 0, spring, 2), (&both, 1773037800)),
        ((in_a_gap, 0, spring, 1), (&both[..1], 1772868600)),
        ((in_a_fold, 0, autumn, 256), (&two_days, 1793664000)),
        (
            (in_a_fold, 0, (1793511001, 1793601000), 1),
            (&two_days[1..], 1793601000),
        ),
        (
            (minutes, 0, (1793512680, 1793516500), 256),
            (&four_minutes, 1793516500),
        ),
        (
            (minutes, 0, (1793512680, 1793516500), 3),
            (&four_minutes[..3], 1793516400),
        ),
        (
            (once, 0, (0, LAST_MOMENT), 256),
            (&[1793511000], LAST_MOMENT),
        ),
        ((once, 0, (0, LAST_MOMENT), 1), (&[1793511000], 1793511000)),
        ((once, 0, (0, 1793510999), 1), (&[], 1793510999)),
    ];
    compare(&rt, &zone_of(&rt, NEW_YORK), &rows);
}

#[test]
fn empty_spans_and_the_last_moment(rt: HostRuntime) {
    let end = Expr::At(civil(((2199, 12, 31), (23, 59, 59))));
    let minutes = Expr::Cron(EVERY_MINUTE);
    let never = Expr::Cron(IN_NO_YEAR);
    let rows: [(Asked, Wanted); 8] = [
        ((minutes, 0, (61, 60), 1), (&[], 60)),
        ((minutes, 0, (u64::MAX, 0), 256), (&[], 0)),
        ((minutes, 0, (61, 119), 1), (&[], 119)),
        ((never, 0, (0, LAST_MOMENT), 256), (&[], LAST_MOMENT)),
        ((HOURLY, 1000, (4601, 4600), 1), (&[], 4600)),
        ((HOURLY, 1000, (0, 999), 1), (&[], 999)),
        (
            (HOURLY, u64::MAX, (0, LAST_MOMENT), 256),
            (&[], LAST_MOMENT),
        ),
        (
            (end, 0, (LAST_MOMENT, LAST_MOMENT), 1),
            (&[LAST_MOMENT], LAST_MOMENT),
        ),
    ];
    compare(&rt, &Zone::utc(), &rows);
}

#[test]
fn steps_of_a_rate(rt: HostRuntime) {
    let daily = Expr::Rate {
        count: 1,
        unit: Unit::Day,
    };
    let days = [1793491200, 1793577600, 1793664000];
    let hours = [1000, 4600];
    let rows: [(Asked, Wanted); 5] = [
        (
            (daily, 1793491200, (1793491200, LAST_MOMENT), 3),
            (&days, 1793664000),
        ),
        ((HOURLY, 1000, (0, 4600), 256), (&hours, 4600)),
        ((HOURLY, 1000, (0, 8199), 256), (&hours, 8199)),
        ((HOURLY, 1000, (1001, 8199), 1), (&hours[1..], 4600)),
        (
            (LONGEST_RATE, 5, (0, LAST_MOMENT), 256),
            (&[5], LAST_MOMENT),
        ),
    ];
    compare(&rt, &zone_of(&rt, NEW_YORK), &rows);
}

/// Compares the first instants of a cron from a moment on with one search for each.
fn compare_with_next<R: Abort + AllocGlobal>(rt: &R, sets: CronSets, zone: &Zone, from: u64) {
    let expr = Expr::Cron(sets);
    let batch = occurrences(rt.alloc(), &expr, zone, 0, from, LAST_MOMENT, 256).expect(
        rt, "memory",
    );
    assert_eq!(rt; batch.instants.len(), 256);
    let mut start = from;
    for instant in batch.instants.as_slice() {
        assert_eq!(rt;
            next_after(&expr, zone, 0, start),
            Some(*instant),
            "{start}"
        );
        assert!(rt; *instant < LAST_MOMENT);
        start = *instant + 1;
    }
}

#[test]
fn each_instant_is_the_next_one(rt: HostRuntime) {
    let zone = zone_of(&rt, NEW_YORK);
    compare_with_next(&rt, EVERY_MINUTE, &zone, 1793505600);
    compare_with_next(&rt, DAILY_AT_2_30, &zone, 1760000000);
    compare_with_next(&rt, DAILY_AT_1_30, &Zone::utc(), 0);
}
