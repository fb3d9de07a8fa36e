ghost use Rattle.std.specs.Prelude.{◌≡◌, ◌≤◌};

use crate::minutes::{EVERY, just_after, minute};
use cron_search::{matches, next_civil};
use expressions::{CronSets, DayRule};
use jiff_core::civil;
use std::process::Abort;

// Months of 28, 29, 30 and 31 days; February 2026 begins on a Sunday and ends on a Saturday, August
// 2026 begins on a Saturday, May 2026 ends on a Sunday; the first month and the last.
const MONTHS: [(u16, u8); 8] = [
    (1970, 1),
    (2026, 2),
    (2028, 2),
    (2026, 4),
    (2026, 5),
    (2026, 8),
    (2100, 2),
    (2199, 12),
];

// What rules of at most one day pick in each of these months, by Python's calendar; 0 for none.
const SINGLE_DAYS: [(DayRule, [u8; 8]); 25] = [
    (DayRule::LastDay, [31, 28, 29, 30, 31, 31, 28, 31]),
    (DayRule::NearWeekday(1), [1, 2, 1, 1, 1, 3, 1, 2]),
    (DayRule::NearWeekday(2), [2, 2, 2, 2, 1, 3, 2, 2]),
    (DayRule::NearWeekday(15), [15, 16, 15, 15, 15, 14, 15, 16]),
    (DayRule::NearWeekday(28), [28, 27, 28, 28, 28, 28, 26, 27]),
    (DayRule::NearWeekday(29), [29, 0, 29, 29, 29, 28, 0, 30]),
    (DayRule::NearWeekday(30), [30, 0, 0, 30, 29, 31, 0, 30]),
    (DayRule::NearWeekday(31), [30, 0, 0, 0, 29, 31, 0, 31]),
    (DayRule::NearWeekday(0), [0, 0, 0, 0, 0, 0, 0, 0]),
    (DayRule::NearWeekday(32), [0, 0, 0, 0, 0, 0, 0, 0]),
    (DayRule::LastOf(1), [25, 22, 27, 26, 31, 30, 28, 29]),
    (DayRule::LastOf(6), [30, 27, 25, 24, 29, 28, 26, 27]),
    (DayRule::LastOf(7), [31, 28, 26, 25, 30, 29, 27, 28]),
    (DayRule::LastOf(0), [0, 0, 0, 0, 0, 0, 0, 0]),
    (DayRule::LastOf(9), [0, 0, 0, 0, 0, 0, 0, 0]),
    (DayRule::Nth { day: 1, nth: 1 }, [4, 1, 6, 5, 3, 2, 7, 1]),
    (
        DayRule::Nth { day: 3, nth: 2 },
        [13, 10, 8, 14, 12, 11, 9, 10],
    ),
    (
        DayRule::Nth { day: 5, nth: 3 },
        [15, 19, 17, 16, 21, 20, 18, 19],
    ),
    (
        DayRule::Nth { day: 7, nth: 4 },
        [24, 28, 26, 25, 23, 22, 27, 28],
    ),
    (DayRule::Nth { day: 1, nth: 5 }, [0, 0, 0, 0, 31, 30, 0, 29]),
    (DayRule::Nth { day: 4, nth: 5 }, [0, 0, 0, 29, 0, 0, 0, 0]),
    (DayRule::Nth { day: 7, nth: 5 }, [31, 0, 0, 0, 30, 29, 0, 0]),
    (DayRule::Nth { day: 2, nth: 6 }, [0, 0, 0, 0, 0, 0, 0, 0]),
    (DayRule::Nth { day: 2, nth: 0 }, [0, 0, 0, 0, 0, 0, 0, 0]),
    (DayRule::Nth { day: 9, nth: 1 }, [0, 0, 0, 0, 0, 0, 0, 0]),
];

// The days that sets pick, by Python's calendar: bit v is day v.
const DAYS_OF_SETS: [(DayRule, [u32; 8]); 8] = [
    (
        DayRule::OfMonth(0x00000002),
        [
            0x00000002, 0x00000002, 0x00000002, 0x00000002, 0x00000002, 0x00000002, 0x00000002,
            0x00000002,
        ],
    ),
    (
        DayRule::OfMonth(0xf0000000),
        [
            0xf0000000, 0x10000000, 0x30000000, 0x70000000, 0xf0000000, 0xf0000000, 0x10000000,
            0xf0000000,
        ],
    ),
    (
        DayRule::OfMonth(0x00008001),
        [
            0x00008000, 0x00008000, 0x00008000, 0x00008000, 0x00008000, 0x00008000, 0x00008000,
            0x00008000,
        ],
    ),
    (
        DayRule::OfMonth(0x00000001),
        [
            0x00000000, 0x00000000, 0x00000000, 0x00000000, 0x00000000, 0x00000000, 0x00000000,
            0x00000000,
        ],
    ),
    (
        DayRule::OfWeek(0b00000010),
        [
            0x02040810, 0x00408102, 0x08102040, 0x04081020, 0x81020408, 0x40810204, 0x10204080,
            0x20408102,
        ],
    ),
    (
        DayRule::OfWeek(0b10000000),
        [
            0x81020408, 0x10204080, 0x04081020, 0x02040810, 0x40810204, 0x20408102, 0x08102040,
            0x10204080,
        ],
    ),
    (
        DayRule::OfWeek(0b01000100),
        [
            0x44891224, 0x08912244, 0x12244890, 0x09122448, 0x22448912, 0x91224488, 0x04489122,
            0x48912244,
        ],
    ),
    (
        DayRule::OfWeek(0b00000001),
        [
            0x00000000, 0x00000000, 0x00000000, 0x00000000, 0x00000000, 0x00000000, 0x00000000,
            0x00000000,
        ],
    ),
];

/// The days of the month on which 09:00 fits, by `matches`: bit v is day v.
fn days_matched(rt: &impl Abort, sets: &CronSets, year: u16, month: u8) -> u64 {
    let mut days = 0;
    for day in 1..32 {
        if year < 2200 && day <= civil::days_in_month(year as i16, month) {
            let nine = minute(rt, (year, month, day), 9, 0);
            if matches(sets, nine) {
                days |= 1 << day;
            }
        }
    }
    days
}

/// The same days, as one search after another finds them.
fn days_found(rt: &impl Abort, sets: &CronSets, year: u16, month: u8) -> u64 {
    let mut days = 0;
    let mut from = minute(rt, (year, month, 1), 0, 0);
    for _ in 0..40 {
        match next_civil(sets, from) {
            Some(found) if found.year == year && found.month == month && found.day < 32 => {
                days |= 1 << found.day;
                from = just_after(found);
            }
            _ => return days,
        }
    }
    days
}

fn expect_days(rt: &impl Abort, rule: DayRule, at: (u16, u8), expected: u64) {
    let (year, month) = at;
    let sets = CronSets {
        minutes: 1,
        hours: 1 << 9,
        days: rule,
        ..EVERY
    };
    assert_eq!(rt;
        days_matched(rt, &sets, year, month),
        expected,
        "{rule:?} {at:?}"
    );
    assert_eq!(rt;
        days_found(rt, &sets, year, month),
        expected,
        "{rule:?} {at:?}"
    );
}

#[test]
fn rules_of_one_day(rt: HostRuntime) {
    for (rule, days) in SINGLE_DAYS {
        for i in 0..MONTHS.len() {
            let expected = if days[i] == 0 || days[i] > 31 {
                0
            } else {
                1 << days[i]
            };
            expect_days(&rt, rule, MONTHS[i], expected);
        }
    }
}

#[test]
fn rules_of_sets(rt: HostRuntime) {
    for (rule, days) in DAYS_OF_SETS {
        for i in 0..MONTHS.len() {
            expect_days(&rt, rule, MONTHS[i], days[i] as u64);
        }
    }
}
