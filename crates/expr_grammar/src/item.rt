//! What an item of a cron's field means.
ghost use Rattle.std.specs.Prelude.{◌≡◌, ◌&&◌};
ghost use Rattle.expressions.specs.CronItems as cron;
ghost use Rattle.expr_grammar.specs.Items.{HasStep, field_of, item_of};

use crate::field::{Field, is_value};

/// What an item of a cron's field means.
#[derive(Debug, Clone, Copy, PartialEq, Eq)]
pub(crate) enum Item {
    /// The values from one to another in steps of a number.
    Values { from: u16, to: u16, by: u16 },
    /// No rule from this field.
    NoRule,
    /// The last day of the month.
    LastDay,
    /// Saturday, as the letter `L`.
    Saturday,
    /// The day from Monday to Friday closest to a day.
    NearWeekday(u16),
    /// The last such day of the week in the month.
    LastOf(u16),
    /// The day of the week, and which of them in the month.
    Nth(u16, u16),
}

/// Whether the numbers of an item are in range.
pub(crate) fn is_in_range(field: Field, item: Item) -> bool
    ensures { result ≡ cron.is_in_range (field_of field) (item_of item) }
{
    match item {
        Item::Values { from, to, by } => are_values(field, from, to) && from <= to && 1 <= by,
        Item::NearWeekday(day) | Item::LastOf(day) => is_value(field, day),
        Item::Nth(day, nth) => is_value(field, day) && 1 <= nth && nth <= 5,
        Item::NoRule | Item::LastDay | Item::Saturday => true,
    }
}

fn are_values(field: Field, from: u16, to: u16) -> bool
    ensures { result ≡ (cron.is_value (field_of field) from && cron.is_value (field_of field) to) }
{
    is_value(field, from) && is_value(field, to)
}

/// Whether an item must stand alone in its field.
pub(crate) fn stands_alone(item: Item) -> bool
    ensures { result ≡ cron.stands_alone (item_of item) }
{
    match item {
        Item::Values { .. } => false,
        _ => true,
    }
}

/// Whether a value is one of an item.
pub(crate) fn contains(item: Item, value: u16) -> bool
    requires { HasStep (item_of item) }
    ensures { result ≡ cron.contains value (item_of item) }
{
    match item {
        Item::Values { from, to, by } => {
            from <= value && value <= to && (value - from) % by == 0
        }
        Item::Saturday => value == 7,
        _ => false,
    }
}
