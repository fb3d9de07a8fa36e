//! The day rule of a set of weekdays.
ghost use Rattle.std.specs.Prelude.{◌≡◌, ℕ, ◌≤◌, ◌<◌, IsTrue, IfSome, IfNone};
ghost use Rattle.cron_search.specs.CivilTime.{IsCivilDate, weekday_after};
ghost use Rattle.cron_search.specs.First.{IsFirst, HasNone};
ghost use Rattle.cron_search.specs.Fit.{has_value};
ghost use Rattle.cron_search.specs.Levels.{IsFittingDay, itself};

use crate::bits::next_value;
use crate::calendar::{SATURDAY, SUNDAY, days_in_month, weekday};
use expressions::DayRule;

/// How many days after a day with the weekday `today` the next day of the set comes: 0 for that day.
fn days_until(set: u8, today: u8) -> Option<u8>
    requires low { 1 ≤ today }
    requires high { today ≤ 7 }
    ensures found { IfSome result (λ k. IsTrue (has_value set (weekday_after today k)) × (k < 7)) }
    ensures least { IfSome result (λ k. (j : ℕ)
        → IsTrue (has_value set (weekday_after today j)) → k ≤ j) }
    ensures none { IfNone result ((j : ℕ)
        → IsTrue (has_value set (weekday_after today j)) → ⊥) }
{
    if let Some(next) = next_value(set as u128, today, SATURDAY + 1) {
        return Some(next - today);
    }
    match next_value(set as u128, SUNDAY, today) {
        Some(next) => Some(next + 7 - today),
        None => None,
    }
}

/// The first day from `from` on whose weekday is in the set.
#[tactic(auto, unfolding(crate::specs::Fit::fits_day))]
pub fn next_in_week(set: u8, year: u16, month: u8, from: u8) -> Option<u8>
    requires month { IsCivilDate year month 1 }
    requires from { 1 ≤ from }
    ensures found { IfSome result (IsFirst (IsFittingDay (DayRule.OfWeek set) year month) itself from) }
    ensures none { IfNone result (HasNone (IsFittingDay (DayRule.OfWeek set) year month) itself from) }
{
    let length = days_in_month(year, month);
    if from > length {
        return None;
    }
    match days_until(set, weekday(year, month, from)) {
        Some(days) if days <= length - from => Some(from + days),
        _ => None,
    }
}
