//! The sets that are timed, under their names.
use expressions::{CronSets, DayRule};

/// `0 9 * * ? *`
const DAILY: CronSets = CronSets {
    minutes: 1,
    hours: 1 << 9,
    days: DayRule::OfMonth(0xffff_fffe),
    months: 0b1_1111_1111_1110,
    years_low: u128::MAX,
    years_high: (1 << 102) - 1,
};

/// `* * * * ? *`
const EVERY_MINUTE: CronSets = CronSets {
    minutes: (1 << 60) - 1,
    hours: (1 << 24) - 1,
    ..DAILY
};

/// `* * * * ? 2023`
fn ended() -> CronSets {
    CronSets {
        years_low: 1 << 53,
        years_high: 0,
        ..EVERY_MINUTE
    }
}

/// The sets with that name, if there is such a case: ordinary ones (`daily`, `weekly`, `last-day`),
/// dense ones (`every-minute`, and `ended` in 2023 alone), sparse ones, and hopeless ones, which no
/// minute to the end of 2199 fits.
pub fn sets_of(case: &str) -> Option<CronSets> {
    let days = match case {
        "daily" => DAILY.days,
        "weekly" => DayRule::OfWeek(1 << 2),
        "last-day" => DayRule::LastDay,
        "weekday-near-31" => DayRule::NearWeekday(31),
        "fifth-monday" => DayRule::Nth { day: 2, nth: 5 },
        "leap-day" | "february-30" | "last-leap-day" => return Some(in_february(case)),
        "every-minute" => return Some(EVERY_MINUTE),
        "ended" => return Some(ended()),
        "sixth-monday" => DayRule::Nth { day: 2, nth: 6 },
        "last-ninth" => DayRule::LastOf(9),
        "weekday-near-0" => DayRule::NearWeekday(0),
        "empty" => DayRule::OfMonth(0),
        _ => return None,
    };
    Some(CronSets { days, ..DAILY })
}

/// `0 9 29 2 ? *`, `0 9 30 2 ? *`, and the former in 2196 alone.
fn in_february(case: &str) -> CronSets {
    let day = if case == "february-30" { 30 } else { 29 };
    let february = CronSets {
        days: DayRule::OfMonth(1 << day),
        months: 1 << 2,
        ..DAILY
    };
    if case != "last-leap-day" {
        return february;
    }
    CronSets {
        years_low: 0,
        years_high: 1 << 98,
        ..february
    }
}
