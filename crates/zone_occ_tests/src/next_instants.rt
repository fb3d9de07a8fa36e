use crate::samples::{
    DAILY_AT_1_30, DAILY_AT_1_45, DAILY_AT_2_30, EVERY_MINUTE, HOURLY, IN_NO_YEAR, LONGEST_RATE,
    LORD_HOWE, NEW_YORK, assert_searchable, civil, zone_of,
};
use expressions::{Expr, Unit};
use plain_words::LAST_MOMENT;
use std::process::Abort;
use zone_occ::{Zone, next_after};

/// An expression, where a rate starts, where the search starts, and what it finds.
type Row = (Expr, u64, u64, Option<u64>);

/// Compares the next instants in a zone with the table.
fn compare(rt: &impl Abort, zone: &Zone, rows: &[Row]) {
    for (expr, anchor, from, wanted) in rows {
        assert_searchable(rt, expr);
        assert_eq!(rt;
            next_after(expr, zone, *anchor, *from),
            *wanted,
            "{expr:?} {from}"
        );
    }
}

// The instants of New York and Lord Howe are those of Python's zoneinfo: its first fold, and nothing where
// the round trip fails.

#[test]
fn a_gap_has_no_instant(rt: HostRuntime) {
    let rows: [Row; 4] = [
        (Expr::Cron(DAILY_AT_2_30), 0, 1772841600, Some(1772868600)),
        (Expr::Cron(DAILY_AT_2_30), 0, 1772868601, Some(1773037800)),
        (Expr::Cron(EVERY_MINUTE), 0, 1772953140, Some(1772953140)),
        (Expr::Cron(EVERY_MINUTE), 0, 1772953141, Some(1772953200)),
    ];
    compare(&rt, &zone_of(&rt, NEW_YORK), &rows);
}

#[test]
fn a_fold_runs_once(rt: HostRuntime) {
    let rows: [Row; 4] = [
        (Expr::Cron(DAILY_AT_1_30), 0, 1793491200, Some(1793511000)),
        (Expr::Cron(DAILY_AT_1_30), 0, 1793511001, Some(1793601000)),
        (Expr::Cron(EVERY_MINUTE), 0, 1793512740, Some(1793512740)),
        (Expr::Cron(EVERY_MINUTE), 0, 1793512741, Some(1793516400)),
    ];
    compare(&rt, &zone_of(&rt, NEW_YORK), &rows);
}

#[test]
fn half_an_hour(rt: HostRuntime) {
    let gone = Expr::At(civil(((2026, 10, 4), (2, 15, 0))));
    let kept = Expr::At(civil(((2026, 10, 4), (2, 30, 0))));
    let rows: [Row; 7] = [
        (gone, 0, 0, None),
        (gone, 0, 1791041400, None),
        (kept, 0, 0, Some(1791041400)),
        (kept, 0, 1791041400, Some(1791041400)),
        (kept, 0, 1791041401, None),
        (Expr::Cron(DAILY_AT_1_45), 0, 1775227501, Some(1775313900)),
        (Expr::Cron(DAILY_AT_1_45), 0, 1775313901, Some(1775402100)),
    ];
    compare(&rt, &zone_of(&rt, LORD_HOWE), &rows);
}

#[test]
fn the_last_moments(rt: HostRuntime) {
    let end = Expr::At(civil(((2199, 12, 31), (23, 59, 59))));
    let minutes = Expr::Cron(EVERY_MINUTE);
    let in_utc: [Row; 8] = [
        (minutes, 0, LAST_MOMENT - 59, Some(LAST_MOMENT - 59)),
        (minutes, 0, LAST_MOMENT - 58, None),
        (minutes, 0, LAST_MOMENT, None),
        (minutes, 0, LAST_MOMENT + 1, None),
        (minutes, 0, u64::MAX, None),
        (Expr::Cron(IN_NO_YEAR), 0, 0, None),
        (end, 0, 0, Some(LAST_MOMENT)),
        (end, 0, LAST_MOMENT + 1, None),
    ];
    compare(&rt, &Zone::utc(), &in_utc);
    let ahead: [Row; 2] = [
        (minutes, 0, LAST_MOMENT - 58, None),
        (minutes, 0, 0, Some(0)),
    ];
    compare(&rt, &zone_of(&rt, b"JST-9"), &ahead);
    compare(&rt, &zone_of(&rt, NEW_YORK), &[(end, 0, 0, None)]);
}

#[test]
fn steps_of_a_rate(rt: HostRuntime) {
    let quickly = Expr::Rate {
        count: 5,
        unit: Unit::Minute,
    };
    let rows: [Row; 12] = [
        (HOURLY, 1000, 0, Some(1000)),
        (HOURLY, 1000, 1000, Some(1000)),
        (HOURLY, 1000, 1001, Some(4600)),
        (HOURLY, 1000, 4600, Some(4600)),
        (HOURLY, LAST_MOMENT, 0, Some(LAST_MOMENT)),
        (HOURLY, LAST_MOMENT - 3599, LAST_MOMENT - 3598, None),
        (HOURLY, LAST_MOMENT + 1, 0, None),
        (HOURLY, u64::MAX, 0, None),
        (LONGEST_RATE, 5, 5, Some(5)),
        (LONGEST_RATE, 5, 6, None),
        (LONGEST_RATE, 0, LAST_MOMENT, None),
        (quickly, 0, 301, Some(600)),
    ];
    compare(&rt, &Zone::utc(), &rows);
}
