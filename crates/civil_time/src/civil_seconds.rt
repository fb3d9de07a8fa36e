//! Civil seconds as numbers: the seconds since 1970-01-01T00:00:00 on a clock that is never changed.
ghost use Rattle.std.specs.Prelude.{◌≡◌, ◌≤◌};
ghost use Rattle.plain_words.specs.Moments.{last_moment};
ghost use Rattle.expressions.specs.CivilSeconds.{IsCivilSecond, civil_second};

use crate::library::library_time;
use expressions::Civil;
use jiff_core::civil::{Date, Time};

const DAY_SECONDS: u64 = 86_400;

/// The seconds from 1970-01-01T00:00:00 to a civil second, which is a real one: 1970-01-02T00:00:00
/// is 86400. The greatest is 7258118399, that of 2199-12-31T23:59:59.
pub fn second_of(d: Civil) -> u64
    requires { IsCivilSecond d }
    ensures value { result ≡ civil_second d }
    ensures bound { result ≤ last_moment }
{
    library_time(d).to_second() as u64
}

/// The one civil second that comes so many seconds after 1970-01-01T00:00:00, a real one; `second`
/// is at most 7258118399, that of 2199-12-31T23:59:59.
pub fn civil_at(second: u64) -> Civil
    requires { second ≤ last_moment }
    ensures real { IsCivilSecond result }
    ensures value { civil_second result ≡ second }
{
    let Ok(date) = Date::from_unix_epoch_day((second / DAY_SECONDS) as i64) else {
        unreachable!()
    };
    let time = Time::from_second((second % DAY_SECONDS) as u32, 0);
    Civil {
        year: date.year as u16,
        month: date.month,
        day: date.day,
        hour: time.hour,
        minute: time.minute,
        second: time.second,
    }
}
