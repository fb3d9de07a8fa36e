use crate::minutes::{EVERY, EVERY_DAY, YEAR_2026, YEAR_2027, YEARS_FROM_2098, just_after, minute};
use cron_search::next_civil;
use expressions::{Civil, CronSets, DayRule};

const NINE: CronSets = CronSets {
    minutes: 1,
    hours: 1 << 9,
    ..EVERY
};

const OF_2026: CronSets = CronSets {
    years_low: YEAR_2026,
    years_high: 0,
    ..NINE
};

#[test]
fn alone_in_its_year(rt: HostRuntime) {
    // `0 9 1W 8 ? 2026`, `0 9 31W 5 ? 2026`, `0 9 ? 1 3#2 2026` and `0 9 ? 1 6L 2026`
    let rows = [
        (DayRule::NearWeekday(1), 8, 3),
        (DayRule::NearWeekday(31), 5, 29),
        (DayRule::Nth { day: 3, nth: 2 }, 1, 13),
        (DayRule::LastOf(6), 1, 30),
    ];
    let from = minute(&rt, (2026, 1, 1), 0, 0);
    for (days, month, day) in rows {
        let sets = CronSets {
            days,
            months: 1 << month,
            ..OF_2026
        };
        let only = minute(&rt, (2026, month, day), 9, 0);
        assert_eq!(rt; next_civil(&sets, from), Some(only));
        assert_eq!(rt; next_civil(&sets, only), Some(only));
        assert_eq!(rt;
            next_civil(&sets, minute(&rt, (2026, month, day), 9, 1)),
            None
        );
        assert_eq!(rt; next_civil(&sets, just_after(only)), None);
    }
}

#[test]
fn never(rt: HostRuntime) {
    let from = minute(&rt, (1970, 1, 1), 0, 0);
    // `0 0 29 2 ? 2026-2027`, `0 9 30W 2 ? *` and `0 0 30 2 ? *`
    let rows = [
        CronSets {
            minutes: 1,
            hours: 1,
            days: DayRule::OfMonth(1 << 29),
            months: 1 << 2,
            years_low: YEAR_2026 | YEAR_2027,
            years_high: 0,
        },
        CronSets {
            days: DayRule::NearWeekday(30),
            months: 1 << 2,
            ..NINE
        },
        CronSets {
            days: DayRule::OfMonth(1 << 30),
            months: 1 << 2,
            ..NINE
        },
    ];
    for sets in rows {
        assert_eq!(rt; next_civil(&sets, from), None);
    }
}

#[test]
fn bits_beyond_their_field(rt: HostRuntime) {
    let from = minute(&rt, (2026, 1, 1), 0, 0);
    let rows = [
        CronSets {
            minutes: 0xf << 60,
            ..EVERY
        },
        CronSets {
            hours: 0xff << 24,
            ..EVERY
        },
        CronSets {
            days: DayRule::OfMonth(1),
            ..EVERY
        },
        CronSets {
            days: DayRule::OfWeek(1),
            ..EVERY
        },
        CronSets {
            months: 1 | 0b111 << 13,
            ..EVERY
        },
        CronSets {
            years_low: 0,
            years_high: u128::MAX << 102,
            ..EVERY
        },
    ];
    for sets in rows {
        assert_eq!(rt; next_civil(&sets, from), None);
    }
}

#[test]
fn ends_of_time(rt: HostRuntime) {
    let first = minute(&rt, (1970, 1, 1), 0, 0);
    let last = minute(&rt, (2199, 12, 31), 23, 59);
    assert_eq!(rt; next_civil(&EVERY, first), Some(first));
    assert_eq!(rt; next_civil(&EVERY, last), Some(last));
    assert_eq!(rt; next_civil(&EVERY, just_after(last)), None);

    // `0 9 1 1 ? 2098-2199`, from both sides of the middle of the years
    let upper = CronSets {
        days: DayRule::OfMonth(1 << 1),
        months: 1 << 1,
        years_low: 0,
        years_high: YEARS_FROM_2098,
        ..NINE
    };
    let of_2098 = minute(&rt, (2098, 1, 1), 9, 0);
    assert_eq!(rt; next_civil(&upper, first), Some(of_2098));
    assert_eq!(rt;
        next_civil(&upper, just_after(of_2098)),
        Some(minute(&rt, (2099, 1, 1), 9, 0))
    );
    assert_eq!(rt; next_civil(&upper, minute(&rt, (2199, 1, 1), 9, 1)), None);
}

#[test]
fn over_midnight_month_and_year(rt: HostRuntime) {
    let daily = CronSets {
        days: EVERY_DAY,
        ..NINE
    };
    let rows = [
        ((2026, 3, 4), 9, 0, (2026, 3, 4)),
        ((2026, 3, 4), 9, 1, (2026, 3, 5)),
        ((2026, 2, 28), 23, 59, (2026, 3, 1)),
        ((2028, 2, 28), 23, 59, (2028, 2, 29)),
        ((2026, 12, 31), 10, 0, (2027, 1, 1)),
        ((2097, 12, 31), 10, 0, (2098, 1, 1)),
    ];
    for (date, hour, at, expected) in rows {
        let from = minute(&rt, date, hour, at);
        assert_eq!(rt; next_civil(&daily, from), Some(minute(&rt, expected, 9, 0)));
    }
}
