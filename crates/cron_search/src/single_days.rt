//! The day rules that allow at most one day of a month.
ghost use Rattle.std.specs.Prelude.{◌≡◌, ℕ, ◌≤◌, IfSome};
ghost use Rattle.cron_search.specs.CivilTime.{IsCivilDate};
ghost use Rattle.cron_search.specs.Fit.{nearest_weekday};
ghost use Rattle.cron_search.specs.Levels.{IsFittingDay};

use crate::calendar::{SATURDAY, SUNDAY, days_in_month, weekday};
use expressions::DayRule;

/// The weekday that is closest to day `n`, in a month of that length where day `n` has this weekday.
pub fn closest_weekday(weekday: u8, length: u8, n: u8) -> u8
    requires weekday_high { weekday ≤ 7 }
    requires length_low { 28 ≤ length }
    requires length_high { length ≤ 31 }
    requires n_low { 1 ≤ n }
    requires n_high { n ≤ length }
    ensures value { result ≡ nearest_weekday weekday length n }
    ensures low { 1 ≤ result }
    ensures high { result ≤ length }
{
    match weekday {
        SATURDAY if n == 1 => 3,
        SATURDAY => n - 1,
        SUNDAY if n == length => n - 2,
        SUNDAY => n + 1,
        _ => n,
    }
}

/// The weekday of the month that is closest to day `n`, where the month has that day.
#[tactic(auto, unfolding(crate::specs::Fit::fits_day))]
pub fn weekday_near(year: u16, month: u8, n: u8) -> Option<u8>
    requires { IsCivilDate year month 1 }
    ensures found { IfSome result (IsFittingDay (DayRule.NearWeekday n) year month) }
    ensures only { (e : ℕ) → IsFittingDay (DayRule.NearWeekday n) year month e → result ≡ Some e }
{
    let length = days_in_month(year, month);
    if n == 0 || n > length {
        return None;
    }
    Some(closest_weekday(weekday(year, month, n), length, n))
}

/// The last day of the month with this weekday.
#[tactic(auto, unfolding(crate::specs::Fit::fits_day), using(crate::proofs::MonthDays::one_month))]
pub fn last_weekday(year: u16, month: u8, day: u8) -> Option<u8>
    requires { IsCivilDate year month 1 }
    ensures found { IfSome result (IsFittingDay (DayRule.LastOf day) year month) }
    ensures only { (e : ℕ) → IsFittingDay (DayRule.LastOf day) year month e → result ≡ Some e }
{
    if day < SUNDAY || day > SATURDAY {
        return None;
    }
    let length = days_in_month(year, month);
    let days_back = (weekday(year, month, length) + 7 - day) % 7;
    Some(length - days_back)
}

/// The nth day of the month with this weekday.
#[tactic(auto, unfolding(crate::specs::Fit::fits_day), using(crate::proofs::MonthDays::one_month))]
pub fn nth_weekday(year: u16, month: u8, day: u8, nth: u8) -> Option<u8>
    requires { IsCivilDate year month 1 }
    ensures found { IfSome result (IsFittingDay (DayRule.Nth day nth) year month) }
    ensures only { (e : ℕ) → IsFittingDay (DayRule.Nth day nth) year month e → result ≡ Some e }
{
    if day < SUNDAY || day > SATURDAY || nth == 0 || nth > 5 {
        return None;
    }
    let first = 1 + (day + 7 - weekday(year, month, 1)) % 7;
    let nth_day = first + 7 * (nth - 1);
    if nth_day <= days_in_month(year, month) {
        Some(nth_day)
    } else {
        None
    }
}
