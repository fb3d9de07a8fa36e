//! Prints a cron.
ghost use Rattle.std.specs.Prelude.{◌≡◌, [], ◌∷◌, ◌++◌, codes, decimal, OnOk};
ghost use Rattle.expressions.specs.Canonical.{cron_text, days_text, set_text, week_text};
ghost use Rattle.expressions.specs.Sets.{has_value, has_year};
ghost use Rattle.expressions.specs.CronItems as cron;

use crate::field::Field;
use crate::print_number::put_number;
use crate::print_set::put_set;
use crate::value_set::ValueSet;
use expressions::{CronSets, DayRule};
use std::alloc::{AllocError, Global};

/// Appends a cron.
pub(crate) fn put_cron(text: &mut Vec<u8>, alloc: Global, sets: &CronSets) -> Result<(), AllocError>
    ensures { OnOk result (text.new.items ≡ text.old.items ++ cron_text sets.now) }
{
    text.extend_from_slice(b"cron(")?;
    put_time(text, alloc, sets)?;
    put_month_days(text, alloc, sets.days)?;
    text.push(b' ')?;
    put_set(
        text,
        alloc,
        Field::Month,
        ValueSet::Values(sets.months as u64),
    )?;
    text.push(b' ')?;
    put_week_days(text, alloc, sets.days)?;
    text.push(b' ')?;
    put_years(text, alloc, sets)?;
    text.push(b')')?;
    Ok(())
}

/// Appends the minutes and the hours, each with a space behind it.
fn put_time(text: &mut Vec<u8>, alloc: Global, sets: &CronSets) -> Result<(), AllocError>
    ensures { OnOk result (text.new.items ≡ text.old.items ++ (set_text cron.minutes (has_value sets.now.minutes) ++ codes " "
        ++ set_text cron.hours (has_value sets.now.hours) ++ codes " ")) }
{
    put_set(text, alloc, Field::Minutes, ValueSet::Values(sets.minutes))?;
    text.push(b' ')?;
    put_set(
        text,
        alloc,
        Field::Hours,
        ValueSet::Values(sets.hours as u64),
    )?;
    text.push(b' ')?;
    Ok(())
}

fn put_years(text: &mut Vec<u8>, alloc: Global, sets: &CronSets) -> Result<(), AllocError>
    ensures { OnOk result (text.new.items ≡ text.old.items ++ set_text cron.year (has_year sets.now)) }
{
    let years = ValueSet::Years {
        low: sets.years_low,
        high: sets.years_high,
    };
    put_set(text, alloc, Field::Year, years)?;
    Ok(())
}

/// Appends day of month: `?` where the rule is one of day of week.
fn put_month_days(text: &mut Vec<u8>, alloc: Global, rule: DayRule) -> Result<(), AllocError>
    ensures { OnOk result (text.new.items ≡ text.old.items ++ days_text rule) }
{
    match rule {
        DayRule::OfMonth(set) => put_set(
            text,
            alloc,
            Field::DayOfMonth,
            ValueSet::Values(set as u64),
        ),
        DayRule::LastDay => text.extend_from_slice(b"L"),
        DayRule::NearWeekday(day) => put_with_letter(text, alloc, day, b'W'),
        DayRule::OfWeek(_) | DayRule::LastOf(_) | DayRule::Nth { .. } => text.extend_from_slice(
            b"?",
        ),
    }
}

/// Appends day of week: `?` where the rule is one of day of month.
fn put_week_days(text: &mut Vec<u8>, alloc: Global, rule: DayRule) -> Result<(), AllocError>
    ensures { OnOk result (text.new.items ≡ text.old.items ++ week_text rule) }
{
    match rule {
        DayRule::OfWeek(set) => put_set(
            text,
            alloc,
            Field::DayOfWeek,
            ValueSet::Values(set as u64),
        ),
        DayRule::LastOf(day) => put_with_letter(text, alloc, day, b'L'),
        DayRule::Nth { day, nth } => put_nth(text, alloc, day, nth),
        DayRule::OfMonth(_) | DayRule::LastDay | DayRule::NearWeekday(_) => text.extend_from_slice(
            b"?",
        ),
    }
}

fn put_with_letter(text: &mut Vec<u8>, alloc: Global, day: u8, letter: u8) -> Result<(), AllocError>
    ensures { OnOk result (text.new.items ≡ text.old.items ++ (decimal day ++ letter ∷ [])) }
{
    put_number(text, alloc, day as u32)?;
    text.push(letter)?;
    Ok(())
}

fn put_nth(text: &mut Vec<u8>, alloc: Global, day: u8, nth: u8) -> Result<(), AllocError>
    ensures { OnOk result (text.new.items ≡ text.old.items ++ (decimal day ++ codes "#" ++ decimal nth)) }
{
    put_number(text, alloc, day as u32)?;
    text.push(b'#')?;
    put_number(text, alloc, nth as u32)?;
    Ok(())
}
