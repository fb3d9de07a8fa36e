//! The years of a cron expression, in two halves of a set.
ghost use Rattle.std.specs.Prelude.{◌≡◌, ◌+◌, ◌≤◌, IfSome, IfNone};
ghost use Rattle.expressions.specs.Years.{first_year, last_year};
ghost use Rattle.cron_search.specs.First.{IsFirst, HasNone};
ghost use Rattle.cron_search.specs.Fit.{has_year};
ghost use Rattle.cron_search.specs.Levels.{IsFittingYear, itself};

use crate::bits::{contains, next_value};
use expressions::{CronSets, FIRST_YEAR, LAST_YEAR, UPPER_YEAR};

/// Whether the year is in the set.
pub fn contains_year(sets: &CronSets, year: u16) -> bool
    requires low { first_year ≤ year }
    requires high { year ≤ last_year }
    ensures { result ≡ has_year sets.now year }
{
    if year < UPPER_YEAR {
        contains(sets.years_low, (year - FIRST_YEAR) as u8)
    } else {
        contains(sets.years_high, (year - UPPER_YEAR) as u8)
    }
}

/// The first year of the set from `from` on.
pub fn next_year(sets: &CronSets, from: u16) -> Option<u16>
    requires low { first_year ≤ from }
    requires high { from ≤ last_year + 1 }
    ensures found { IfSome result (IsFirst (IsFittingYear sets.now) itself from) }
    ensures none { IfNone result (HasNone (IsFittingYear sets.now) itself from) }
{
    if from < UPPER_YEAR
        && let Some(bit) = next_value(sets.years_low, (from - FIRST_YEAR) as u8, 128)
    {
        return Some(FIRST_YEAR + bit as u16);
    }
    let from_upper = from.max(UPPER_YEAR) - UPPER_YEAR;
    let end = (LAST_YEAR - UPPER_YEAR + 1) as u8;
    match next_value(sets.years_high, from_upper as u8, end) {
        Some(bit) => Some(UPPER_YEAR + bit as u16),
        None => None,
    }
}
