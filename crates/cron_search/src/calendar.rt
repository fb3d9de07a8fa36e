//! Days of the calendar, from 1970 to 2199.
ghost use Rattle.std.specs.Prelude.{◌≡◌, ◌≤◌, ◌<◌, ◌^◌};
ghost use Rattle.cron_search.specs.CivilTime as Calendar;
ghost use Rattle.cron_search.specs.CivilTime.{IsCivilDate, weekday_of, month_length};

use jiff_core::civil;

/// The number of Sunday in a week counted from 1.
pub const SUNDAY: u8 = 1;

/// The number of Saturday in a week counted from 1.
pub const SATURDAY: u8 = 7;

/// The number of a day of the calendar since 1970-01-01, which is 0.
fn day_number(year: u16, month: u8, day: u8) -> u32
    requires { IsCivilDate year month day }
    ensures value { result ≡ Calendar.day_number year month day }
    ensures bound { result < 2 ^ 31 }
{
    let date = civil::Date {
        year: year as i16,
        month,
        day,
    };
    date.to_unix_epoch_day() as u32
}

/// The weekday of a day of the calendar: 1 is Sunday and 7 is Saturday.
pub fn weekday(year: u16, month: u8, day: u8) -> u8
    requires { IsCivilDate year month day }
    ensures { result ≡ weekday_of year month day }
{
    ((day_number(year, month, day) + 4) % 7 + 1) as u8
}

/// How many days the month has, from 28 to 31.
pub fn days_in_month(year: u16, month: u8) -> u8
    requires { IsCivilDate year month 1 }
    ensures value { result ≡ month_length year month }
    ensures low { 28 ≤ result }
    ensures high { result ≤ 31 }
{
    civil::days_in_month(year as i16, month)
}
