//! Civil seconds as the values of the calendar's library.
ghost use Rattle.std.specs.Prelude.{◌≡◌, pos};
ghost use Rattle.jiff_core.specs.DateTime.{civil_seconds};
ghost use Rattle.expressions.specs.CivilSeconds.{IsCivilSecond, civil_second};

use expressions::Civil;
use jiff_core::civil::{Date, DateTime, Time};

/// The civil second as jiff's date and time, a whole second.
pub fn library_time(d: Civil) -> DateTime
    requires { IsCivilSecond d }
    ensures year { result.date.year ≡ pos d.year }
    ensures second { civil_seconds result ≡ pos (civil_second d) }
    ensures whole { result.time.subsec_nanosecond ≡ 0 }
{
    DateTime {
        date: Date {
            year: d.year as i16,
            month: d.month,
            day: d.day,
        },
        time: Time {
            hour: d.hour,
            minute: d.minute,
            second: d.second,
            subsec_nanosecond: 0,
        },
    }
}
