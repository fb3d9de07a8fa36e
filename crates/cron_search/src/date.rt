//! The search for a day, by year, month and day.
ghost use Rattle.std.specs.Prelude.{◌≡◌, ◌≤◌, IsTrue, IfSome, IfNone};
ghost use Rattle.expressions.specs.Years.{last_year};
ghost use Rattle.cron_search.specs.Fit.{has_value, has_year};
ghost use Rattle.cron_search.specs.First.{IsFirst, HasNone};
ghost use Rattle.cron_search.specs.Levels.{date_key, IsInMonth, IsInYear, IsFittingDate, IsStart};
ghost use Rattle.cron_search.specs.declared.date.Date.{Date};

use crate::bits::next_value;
use crate::day_rule::{allows_none, next_day};
use crate::years::next_year;
use expressions::CronSets;

/// A day of the calendar. As the start of a search the day may be one more than the month has.
#[derive(Clone, Copy, PartialEq, Eq)]
pub struct Date {
    pub year: u16,
    pub month: u8,
    pub day: u8,
}

/// The first allowed day of the year and month of `from`, which are allowed, from `from` on.
fn next_in_month(sets: &CronSets, from: Date) -> Option<Date>
    requires start { IsStart from }
    requires month { IsTrue (has_value sets.now.months from.month) }
    requires year { IsTrue (has_year sets.now from.year) }
    ensures found { IfSome result (IsFirst (IsInMonth sets.now from.year from.month) date_key (date_key from)) }
    ensures none { IfNone result (HasNone (IsInMonth sets.now from.year from.month) date_key (date_key from)) }
{
    let day = next_day(sets.days, from.year, from.month, from.day)?;
    Some(Date {
        year: from.year,
        month: from.month,
        day,
    })
}

/// Where to start in a month: at `cursor` in its own month, and else at the first day.
fn start_in_month(cursor: Date, month: u8) -> Date
    requires start { IsStart cursor }
    requires low { cursor.month ≤ month }
    requires high { month ≤ 12 }
    ensures start { IsStart result }
    ensures year { result.year ≡ cursor.year }
    ensures month { result.month ≡ month }
    ensures later { date_key cursor ≤ date_key result }
    ensures least { (e : Date) → 1 ≤ e.day → e.year ≡ cursor.year → e.month ≡ month
        → date_key cursor ≤ date_key e → date_key result ≤ date_key e }
{
    if cursor.month == month {
        cursor
    } else {
        Date {
            year: cursor.year,
            month,
            day: 1,
        }
    }
}

/// The first allowed day of the year of `from`, which is allowed, from `from` on.
fn next_in_year(sets: &CronSets, from: Date) -> Option<Date>
    requires start { IsStart from }
    requires year { IsTrue (has_year sets.now from.year) }
    ensures found { IfSome result (IsFirst (IsInYear sets.now from.year) date_key (date_key from)) }
    ensures none { IfNone result (HasNone (IsInYear sets.now from.year) date_key (date_key from)) }
{
    let months = sets.months as u128;
    let mut cursor = from;
    while let Some(month) = next_value(months, cursor.month, 13) {
        if let Some(date) = next_in_month(sets, start_in_month(cursor, month)) {
            return Some(date);
        }
        cursor = Date {
            year: from.year,
            month: month + 1,
            day: 1,
        };
    }
    None
}

/// Where to start in a year: at `cursor` in its own year, and else at 1 January.
fn start_in_year(cursor: Date, year: u16) -> Date
    requires start { IsStart cursor }
    requires low { cursor.year ≤ year }
    requires high { year ≤ last_year }
    ensures start { IsStart result }
    ensures year { result.year ≡ year }
    ensures later { date_key cursor ≤ date_key result }
    ensures least { (e : Date) → 1 ≤ e.month → 1 ≤ e.day → e.year ≡ year
        → date_key cursor ≤ date_key e → date_key result ≤ date_key e }
{
    if cursor.year == year {
        cursor
    } else {
        Date {
            year,
            month: 1,
            day: 1,
        }
    }
}

/// The first allowed day from `from` on, to the end of 2199, year by year.
fn next_in_years(sets: &CronSets, from: Date) -> Option<Date>
    requires { IsStart from }
    ensures found { IfSome result (IsFirst (IsFittingDate sets.now) date_key (date_key from)) }
    ensures none { IfNone result (HasNone (IsFittingDate sets.now) date_key (date_key from)) }
{
    let mut cursor = from;
    while let Some(year) = next_year(sets, cursor.year) {
        if let Some(date) = next_in_year(sets, start_in_year(cursor, year)) {
            return Some(date);
        }
        cursor = Date {
            year: year + 1,
            month: 1,
            day: 1,
        };
    }
    None
}

/// Whether the months or the day rule are empty, so that no day is allowed in any year.
fn has_no_day(sets: &CronSets) -> bool
    ensures { IsTrue result → (d : Date) → IsFittingDate sets.now d → ⊥ }
{
    next_value(sets.months as u128, 1, 13).is_none() || allows_none(sets.days)
}

/// The first allowed day from `from` on, to the end of 2199.
pub fn next_date(sets: &CronSets, from: Date) -> Option<Date>
    requires { IsStart from }
    ensures found { IfSome result (IsFirst (IsFittingDate sets.now) date_key (date_key from)) }
    ensures none { IfNone result (HasNone (IsFittingDate sets.now) date_key (date_key from)) }
{
    if has_no_day(sets) {
        return None;
    }
    next_in_years(sets, from)
}
