//! Which dates and times are real.
ghost use Rattle.std.specs.Prelude.{◌≡◌, is_ok, IfOk};
ghost use Rattle.expressions.specs.CivilSeconds as seconds;
ghost use Rattle.expressions.specs.CivilSeconds.{is_civil, IsCivilDate, IsCivilSecond};
ghost use Rattle.civil_time.specs.Checked as checks;

use crate::civil_fault::CivilFault;
use expressions::{Civil, FIRST_YEAR, LAST_YEAR};
use jiff_core::civil::days_in_month;

/// How many days the month has.
fn month_length(year: u16, month: u8) -> u8
    requires { IsCivilDate year month 1 }
    ensures { result ≡ seconds.month_length year month }
{
    days_in_month(year as i16, month)
}

/// The fault of a date.
fn date_fault(d: Civil) -> Option<CivilFault>
    ensures { result ≡ checks.date_fault d }
{
    if d.year < FIRST_YEAR || LAST_YEAR < d.year {
        return Some(CivilFault::Year);
    }
    if d.month < 1 || 12 < d.month {
        return Some(CivilFault::Month);
    }
    if d.day < 1 || month_length(d.year, d.month) < d.day {
        return Some(CivilFault::Day);
    }
    None
}

/// The fault of a time of day.
fn time_fault(d: Civil) -> Option<CivilFault>
    ensures { result ≡ checks.time_fault d }
{
    if d.hour >= 24 {
        return Some(CivilFault::Hour);
    }
    if d.minute >= 60 {
        return Some(CivilFault::Minute);
    }
    if d.second >= 60 {
        return Some(CivilFault::Second);
    }
    None
}

/// The date and time, where it is a real civil second of the years 1970 to 2199, and else its first
/// part that is not. 2028-02-29 is a day and 2026-02-29 is none.
pub fn checked(d: Civil) -> Result<Civil, CivilFault>
    ensures exact { result ≡ checks.checked d }
    ensures real { is_ok result ≡ is_civil d }
    ensures civil { IfOk result IsCivilSecond }
{
    match date_fault(d).or(time_fault(d)) {
        Some(fault) => Err(fault),
        None => Ok(d),
    }
}
