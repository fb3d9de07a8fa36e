//! What is kept of the items of a field while they are read.
ghost use Rattle.std.specs.Prelude.{◌≡◌, ◌+◌, ◌≤◌, ◌||◌, List, [], ◌∷◌, ◌++◌};
ghost use Rattle.expressions.specs.CronItems as cron;
ghost use Rattle.expressions.specs.Years.{upper_year};
ghost use Rattle.expr_grammar.specs.Items.{HasStep, Summarizes, field_of, first_value, item_of};

use crate::field::Field;
use crate::item::{Item, contains, stands_alone};
use expressions::FIRST_YEAR;

/// What the items of a field give. Bit i of `low` and then of `high` is the field's first value and i.
#[derive(Clone, Copy)]
pub(crate) struct Items {
    pub(crate) first: Option<Item>,
    pub(crate) several: bool,
    /// One of them must stand alone.
    pub(crate) alone: bool,
    pub(crate) low: u128,
    pub(crate) high: u128,
}

/// The items of a field before the first.
pub(crate) fn no_items(field: Field) -> Items
    ensures { Summarizes (field_of field) result [] }
{
    let _ = field;
    Items {
        first: None,
        several: false,
        alone: false,
        low: 0,
        high: 0,
    }
}

/// The items of a field with one more.
pub(crate) fn with_item(field: Field, items: Items, item: Item) -> Items
    requires { HasStep (item_of item) }
    ensures { (all : List cron.Item) → Summarizes (field_of field) items all → Summarizes (field_of field) result (all ++ item_of item ∷ []) }
{
    let first = first_value(field);
    Items {
        first: Some(items.first.unwrap_or(item)),
        several: items.first.is_some(),
        alone: any_alone(items.alone, item),
        low: items.low | bits_from(first, item),
        high: items.high | bits_from(first + 128, item),
    }
}

fn any_alone(before: bool, item: Item) -> bool
    ensures { result ≡ (before || cron.stands_alone (item_of item)) }
{
    before || stands_alone(item)
}

/// The value of bit 0 of a field's set.
pub(crate) fn first_value(field: Field) -> u16
    ensures { result ≡ first_value (field_of field) }
{
    match field {
        Field::Year => FIRST_YEAR,
        _ => 0,
    }
}

/// The values of an item from one on, as bits.
fn bits_from(first: u16, item: Item) -> u128
    requires step { HasStep (item_of item) }
    requires room { first ≤ upper_year }
    ensures { result ≡ cron.years_of first (item_of item ∷ []) }
{
    let mut bits: u128 = 0;
    for place in 0..128 {
        if contains(item, first + place) {
            bits += 1 << place;
        }
    }
    bits
}
