//! Whether a civil minute fits, and the next one that does.
ghost use Rattle.std.specs.Prelude.{◌≡◌, ℕ, ◌+◌, ◌*◌, ◌≤◌, ◌<◌, IsTrue, IfSome, IfNone};
ghost use Rattle.cron_search.specs.Fit.{fits};
ghost use Rattle.cron_search.specs.CivilTime.{IsCivilDate, IsCivilSecond};
ghost use Rattle.cron_search.specs.First.{IsFirst, HasNone};
ghost use Rattle.cron_search.specs.Levels.{date_key, minute_of_day, minute_key, IsFittingDate};
ghost use Rattle.cron_search.specs.Levels.{IsFittingTime, IsStart};
ghost use Rattle.cron_search.specs.Search.{IsFittingMinute, IsFirstFit, HasNoFit};
ghost use Rattle.expressions.specs.declared.expression.CronSets.{CronSets};

use crate::bits::contains;
use crate::date::{Date, next_date};
use crate::day_rule;
use crate::time::{TimeOfDay, next_time};
use crate::years::contains_year;
use expressions::{Civil, CronSets};

const MIDNIGHT: TimeOfDay = TimeOfDay { hour: 0, minute: 0 };

/// Whether the civil minute `d` fits the sets: its year, month, hour and minute are in theirs, and the
/// day rule allows its day. The sets of `0 9 1W * ? *` fit 2026-08-03T09:00, since 1 August 2026 is a
/// Saturday. `d` is the start of a minute from 1970 to 2199.
pub fn matches(sets: &CronSets, d: Civil) -> bool
    requires real { IsCivilSecond d }
    requires whole { d.second ≡ 0 }
    ensures { result ≡ fits sets.now d }
{
    contains_year(sets, d.year)
        && contains(sets.months as u128, d.month)
        && day_rule::allows(sets.days, d.year, d.month, d.day)
        && contains(sets.hours as u128, d.hour)
        && contains(sets.minutes as u128, d.minute)
}

/// The start of the minute at that day and time.
fn minute_at(date: Date, time: TimeOfDay) -> Civil
    ensures key { minute_key result ≡ date_key date * 1440 + minute_of_day time }
    ensures fitting { (sets : CronSets)
        → IsFittingDate sets date → IsFittingTime sets time → IsFittingMinute sets result }
{
    Civil {
        year: date.year,
        month: date.month,
        day: date.day,
        hour: time.hour,
        minute: time.minute,
        second: 0,
    }
}

/// The first fitting minute of the days from `start` on.
fn next_from_day(sets: &CronSets, start: Date, earliest: TimeOfDay) -> Option<Civil>
    requires start { IsStart start }
    requires earliest { IsFirst (IsFittingTime sets.now) minute_of_day 0 earliest }
    ensures found { IfSome result (IsFirst (IsFittingMinute sets.now) minute_key (date_key start * 1440)) }
    ensures none { IfNone result (HasNone (IsFittingMinute sets.now) minute_key (date_key start * 1440)) }
{
    match next_date(sets, start) {
        Some(date) => Some(minute_at(date, earliest)),
        None => None,
    }
}

/// The first fitting minute from a fitting time of a day on.
fn next_from_time(
    sets: &CronSets,
    date: Date,
    time: TimeOfDay,
    earliest: TimeOfDay,
) -> Option<Civil>
    requires date { IsCivilDate date.year date.month date.day }
    requires time { IsFittingTime sets.now time }
    requires earliest { IsFirst (IsFittingTime sets.now) minute_of_day 0 earliest }
    ensures found { IfSome result (IsFirst (IsFittingMinute sets.now) minute_key
        (date_key date * 1440 + minute_of_day time)) }
    ensures none { IfNone result (HasNone (IsFittingMinute sets.now) minute_key
        (date_key date * 1440 + minute_of_day time)) }
{
    match next_date(sets, date) {
        Some(next) if next == date => Some(minute_at(next, time)),
        Some(next) => Some(minute_at(next, earliest)),
        None => None,
    }
}

/// The first fitting minute from `from` on that day on.
fn next_minute(sets: &CronSets, date: Date, from: TimeOfDay) -> Option<Civil>
    requires date { IsCivilDate date.year date.month date.day }
    requires hour { from.hour ≤ 23 }
    requires minute { from.minute ≤ 60 }
    ensures found { IfSome result (IsFirst (IsFittingMinute sets.now) minute_key
        (date_key date * 1440 + minute_of_day from)) }
    ensures none { IfNone result (HasNone (IsFittingMinute sets.now) minute_key
        (date_key date * 1440 + minute_of_day from)) }
{
    let Some(earliest) = next_time(sets, MIDNIGHT) else {
        return None;
    };
    match next_time(sets, from) {
        Some(time) => next_from_time(sets, date, time, earliest),
        None => {
            let tomorrow = Date {
                year: date.year,
                month: date.month,
                day: date.day + 1,
            };
            next_from_day(sets, tomorrow, earliest)
        }
    }
}

/// The time of day at which to start: that of `from`, and a minute later where its second is above 0.
fn whole_minute(from: Civil) -> TimeOfDay
    requires { IsCivilSecond from }
    ensures hour { result.hour ≡ from.hour }
    ensures high { result.minute ≤ 60 }
    ensures after { from.minute * 60 + from.second ≤ result.minute * 60 }
    ensures near { result.minute * 60 < from.minute * 60 + from.second + 60 }
{
    let minute = if from.second == 0 {
        from.minute
    } else {
        from.minute + 1
    };
    TimeOfDay {
        hour: from.hour,
        minute,
    }
}

/// The first fitting minute at or after the second `from`, or `None` where none comes to the end of
/// 2199. Where the second of `from` is above 0, its own minute has begun and does not count. For the
/// sets of `0 9 * * ? *` and 2026-02-28T09:00:01 it is 2026-03-01T09:00.
///
/// The search goes by the next value of a set: at most 230 years of 12 months, and one day in each.
pub fn next_civil(sets: &CronSets, from: Civil) -> Option<Civil>
    requires { IsCivilSecond from }
    ensures found { IfSome result (IsFirstFit sets.now from) }
    ensures none { IfNone result (HasNoFit sets.now from) }
{
    let date = Date {
        year: from.year,
        month: from.month,
        day: from.day,
    };
    next_minute(sets, date, whole_minute(from))
}
