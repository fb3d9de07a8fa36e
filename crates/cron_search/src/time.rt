//! Times of day in whole minutes.
ghost use Rattle.std.specs.Prelude.{◌≤◌, IfSome, IfNone};
ghost use Rattle.cron_search.specs.First.{IsFirst, HasNone};
ghost use Rattle.cron_search.specs.Levels.{minute_of_day, IsFittingTime, IsInHour};

use crate::bits::{contains, next_value};
use expressions::CronSets;

/// An hour from 0 to 23 and a minute from 0 to 59. As the start of a search the minute may be 60:
/// the next hour.
#[derive(Clone, Copy)]
pub struct TimeOfDay {
    pub hour: u8,
    pub minute: u8,
}

/// The first time of the same hour from `from` on that is allowed.
fn next_in_hour(sets: &CronSets, from: TimeOfDay) -> Option<TimeOfDay>
    requires { from.hour ≤ 23 }
    ensures found { IfSome result (IsFirst (IsInHour sets.now from.hour) minute_of_day (minute_of_day from)) }
    ensures none { IfNone result (HasNone (IsInHour sets.now from.hour) minute_of_day (minute_of_day from)) }
{
    if !contains(sets.hours as u128, from.hour) {
        return None;
    }
    match next_value(sets.minutes as u128, from.minute, 60) {
        Some(minute) => Some(TimeOfDay {
            hour: from.hour,
            minute,
        }),
        None => None,
    }
}

/// The first time of day from `from` on that is allowed.
pub fn next_time(sets: &CronSets, from: TimeOfDay) -> Option<TimeOfDay>
    requires hour { from.hour ≤ 23 }
    requires minute { from.minute ≤ 60 }
    ensures found { IfSome result (IsFirst (IsFittingTime sets.now) minute_of_day (minute_of_day from)) }
    ensures none { IfNone result (HasNone (IsFittingTime sets.now) minute_of_day (minute_of_day from)) }
{
    if let Some(time) = next_in_hour(sets, from) {
        return Some(time);
    }
    let hour = next_value(sets.hours as u128, from.hour + 1, 24)?;
    let minute = next_value(sets.minutes as u128, 0, 60)?;
    Some(TimeOfDay { hour, minute })
}
