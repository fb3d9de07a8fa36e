//! Sets that fit every minute, and minutes to search from.
ghost use Rattle.std.specs.Prelude.{◌≡◌, ◌≤◌};
ghost use Rattle.cron_search.specs.CivilTime.{IsCivilSecond};

use expressions::{Civil, CronSets, DayRule};
use jiff_core::civil;
use std::process::Abort;

const EVERY_MINUTE: u64 = (1 << 60) - 1;

const EVERY_HOUR: u32 = (1 << 24) - 1;

const EVERY_MONTH: u16 = 0b1_1111_1111_1110;

pub const EVERY_DAY: DayRule = DayRule::OfMonth(0xffff_fffe);

const YEARS_TO_2097: u128 = u128::MAX;

pub const YEARS_FROM_2098: u128 = (1 << 102) - 1;

/// The bit of a year of the lower half.
pub const YEAR_2026: u128 = 1 << 56;

pub const YEAR_2027: u128 = 1 << 57;

pub const EVERY: CronSets = CronSets {
    minutes: EVERY_MINUTE,
    hours: EVERY_HOUR,
    days: EVERY_DAY,
    months: EVERY_MONTH,
    years_low: YEARS_TO_2097,
    years_high: YEARS_FROM_2098,
};

/// The start of a minute; the test ends where the calendar has no such minute from 1970 to 2199.
pub fn minute(rt: &impl Abort, date: (u16, u8, u8), hour: u8, minute: u8) -> Civil
    ensures { IsCivilSecond result × (result.second ≡ 0) }
{
    let (year, month, day) = date;
    assert!(rt;
        year >= 1970 && year <= 2199 && month >= 1 && month <= 12,
        "{year} {month}"
    );
    assert!(rt;
        day >= 1 && day <= civil::days_in_month(year as i16, month),
        "{year} {month} {day}"
    );
    assert!(rt; hour <= 23 && minute <= 59, "{hour}:{minute}");
    Civil {
        year,
        month,
        day,
        hour,
        minute,
        second: 0,
    }
}

/// One second later than the start of a minute.
pub fn just_after(d: Civil) -> Civil
    requires { IsCivilSecond d × (d.second ≡ 0) }
    ensures { IsCivilSecond result }
{
    Civil {
        year: d.year,
        month: d.month,
        day: d.day,
        hour: d.hour,
        minute: d.minute,
        second: 1,
    }
}
