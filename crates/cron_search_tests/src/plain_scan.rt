ghost use Rattle.std.specs.Prelude.{◌≡◌, ◌≤◌, IfSome};
ghost use Rattle.cron_search.specs.CivilTime.{IsCivilSecond};

use crate::minutes::{EVERY, minute};
use cron_search::{matches, next_civil};
use expressions::{Civil, CronSets, DayRule};
use jiff_core::civil;

/// How many minutes are scanned at most, where a set has fitting minutes.
const HALF_A_YEAR: u32 = 184 * 1440;

/// How many minutes are scanned, where a set has none.
const TWO_MONTHS: u32 = 62 * 1440;

/// The next minute of the calendar, to the end of 2199.
fn following(d: Civil) -> Option<Civil>
    requires { IsCivilSecond d × (d.second ≡ 0) }
    ensures { IfSome result (λ e. IsCivilSecond e × (e.second ≡ 0)) }
{
    if d.minute < 59 {
        return Some(Civil {
            minute: d.minute + 1,
            ..d
        });
    }
    if d.hour < 23 {
        return Some(Civil {
            hour: d.hour + 1,
            minute: 0,
            ..d
        });
    }
    following_day(d)
}

/// Midnight of the next day.
fn following_day(d: Civil) -> Option<Civil>
    requires { IsCivilSecond d × (d.second ≡ 0) }
    ensures { IfSome result (λ e. IsCivilSecond e × (e.second ≡ 0)) }
{
    let midnight = Civil {
        hour: 0,
        minute: 0,
        ..d
    };
    if d.day < civil::days_in_month(d.year as i16, d.month) {
        return Some(Civil {
            day: d.day + 1,
            ..midnight
        });
    }
    if d.month < 12 {
        return Some(Civil {
            month: d.month + 1,
            day: 1,
            ..midnight
        });
    }
    if d.year < 2199 {
        return Some(Civil {
            year: d.year + 1,
            month: 1,
            day: 1,
            ..midnight
        });
    }
    None
}

/// The first of so many minutes from `from` on that matches.
fn first_match(sets: &CronSets, from: Civil, minutes: u32) -> Option<Civil>
    requires { IsCivilSecond from × (from.second ≡ 0) }
{
    let mut at = from;
    for _ in 0..minutes {
        if matches(sets, at) {
            return Some(at);
        }
        match following(at) {
            Some(next) => at = next,
            None => return None,
        }
    }
    None
}

#[test]
fn agrees_with_the_plain_scan(rt: HostRuntime) {
    let nine = CronSets {
        minutes: 1,
        hours: 1 << 9,
        ..EVERY
    };
    // each with a fitting minute in any half a year, or with none at all
    let sets = [
        (EVERY, HALF_A_YEAR),
        (nine, HALF_A_YEAR),
        (
            CronSets {
                days: DayRule::OfWeek(1 << 2),
                ..nine
            },
            HALF_A_YEAR,
        ),
        (
            CronSets {
                days: DayRule::NearWeekday(1),
                ..EVERY
            },
            HALF_A_YEAR,
        ),
        (
            CronSets {
                days: DayRule::LastDay,
                minutes: 1 << 59,
                hours: 1 << 23,
                ..EVERY
            },
            HALF_A_YEAR,
        ),
        (
            CronSets {
                days: DayRule::LastOf(6),
                minutes: 0x0102_0408,
                ..EVERY
            },
            HALF_A_YEAR,
        ),
        (
            CronSets {
                days: DayRule::Nth { day: 2, nth: 5 },
                ..nine
            },
            HALF_A_YEAR,
        ),
        (
            CronSets {
                days: DayRule::OfMonth(1 << 30),
                months: 1 << 2,
                ..EVERY
            },
            TWO_MONTHS,
        ),
        (
            CronSets {
                days: DayRule::Nth { day: 2, nth: 6 },
                ..EVERY
            },
            TWO_MONTHS,
        ),
        (
            CronSets {
                hours: 0xff << 24,
                ..EVERY
            },
            TWO_MONTHS,
        ),
    ];
    let starts = [
        ((1970, 1, 1), 0, 0),
        ((2000, 2, 28), 23, 59),
        ((2024, 2, 29), 12, 30),
        ((2026, 1, 31), 23, 0),
        ((2026, 6, 15), 9, 0),
        ((2026, 8, 2), 9, 1),
        ((2097, 12, 31), 23, 59),
        ((2100, 2, 28), 10, 10),
        ((2199, 11, 29), 0, 0),
        ((2199, 12, 31), 23, 59),
    ];
    for (set, minutes) in sets {
        for (date, hour, at) in starts {
            let from = minute(&rt, date, hour, at);
            let expected = first_match(&set, from, minutes);
            assert_eq!(rt; next_civil(&set, from), expected, "{date:?} {hour}:{at}");
        }
    }
}
