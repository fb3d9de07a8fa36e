//! Which days of a month a day rule allows.
ghost use Rattle.std.specs.Prelude.{◌≡◌, ℕ, ◌≤◌, IsTrue, IfSome, IfNone};
ghost use Rattle.cron_search.specs.CivilTime.{IsCivilDate};
ghost use Rattle.cron_search.specs.First.{IsFirst, HasNone};
ghost use Rattle.cron_search.specs.Fit.{fits_day};
ghost use Rattle.cron_search.specs.Levels.{IsFittingDay, itself};

use crate::bits::{contains, next_value};
use crate::calendar::{SATURDAY, SUNDAY, days_in_month, weekday};
use crate::single_days::{closest_weekday, last_weekday, nth_weekday, weekday_near};
use crate::week::next_in_week;
use expressions::DayRule;

/// The day, if it is not before `from`.
fn not_before(day: Option<u8>, from: u8) -> Option<u8>
    ensures found { IfSome result (λ d. (day ≡ Some d) × (from ≤ d)) }
    ensures none { IfNone result ((d : ℕ) → day ≡ Some d → from ≤ d → ⊥) }
{
    match day {
        Some(day) if day >= from => Some(day),
        _ => None,
    }
}

/// The first day of the month from `from` on that the rule allows.
#[tactic(auto, unfolding(crate::specs::Fit::fits_day))]
pub fn next_day(rule: DayRule, year: u16, month: u8, from: u8) -> Option<u8>
    requires month { IsCivilDate year month 1 }
    requires from { 1 ≤ from }
    ensures found { IfSome result (IsFirst (IsFittingDay rule year month) itself from) }
    ensures none { IfNone result (HasNone (IsFittingDay rule year month) itself from) }
{
    match rule {
        DayRule::OfMonth(set) => next_value(set as u128, from, days_in_month(year, month) + 1),
        DayRule::LastDay => not_before(Some(days_in_month(year, month)), from),
        DayRule::NearWeekday(n) => not_before(weekday_near(year, month, n), from),
        DayRule::OfWeek(set) => next_in_week(set, year, month, from),
        DayRule::LastOf(day) => not_before(last_weekday(year, month, day), from),
        DayRule::Nth { day, nth } => not_before(nth_weekday(year, month, day, nth), from),
    }
}

/// Whether the rule allows the day.
#[tactic(auto, unfolding(crate::specs::Fit::fits_day))]
pub fn allows(rule: DayRule, year: u16, month: u8, day: u8) -> bool
    requires { IsCivilDate year month day }
    ensures { result ≡ fits_day rule year month day }
{
    let length = days_in_month(year, month);
    match rule {
        DayRule::OfMonth(set) => contains(set as u128, day),
        DayRule::LastDay => day == length,
        DayRule::NearWeekday(n) => {
            n >= 1 && n <= length && day == closest_weekday(weekday(year, month, n), length, n)
        }
        DayRule::OfWeek(set) => contains(set as u128, weekday(year, month, day)),
        DayRule::LastOf(last) => weekday(year, month, day) == last && length < day + 7,
        DayRule::Nth { day: of_week, nth } => {
            weekday(year, month, day) == of_week && (day + 6) / 7 == nth
        }
    }
}

/// Whether the rule names no day that a month could have.
#[tactic(auto, unfolding(crate::specs::Fit::fits_day))]
pub fn allows_none(rule: DayRule) -> bool
    ensures { IsTrue result → (year month day : ℕ) → IsFittingDay rule year month day → ⊥ }
{
    match rule {
        DayRule::OfMonth(set) => next_value(set as u128, 1, 32).is_none(),
        DayRule::LastDay => false,
        DayRule::NearWeekday(n) => n == 0 || n > 31,
        DayRule::OfWeek(set) => next_value(set as u128, SUNDAY, SATURDAY + 1).is_none(),
        DayRule::LastOf(day) => day < SUNDAY || day > SATURDAY,
        DayRule::Nth { day, nth } => day < SUNDAY || day > SATURDAY || nth == 0 || nth > 5,
    }
}
