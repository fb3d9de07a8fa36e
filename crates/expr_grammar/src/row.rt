//! The table of the items of a cron's fields.
ghost use Rattle.std.specs.Prelude.{◌≡◌, ◌+◌, ◌-◌, ◌<◌, ◌≤◌, Some, None, [], ◌∷◌, length, if◌then◌else◌};
ghost use Rattle.std.specs.Option.{option_copied, option_map};
ghost use Rattle.plain_words.specs.Bytes.{dash};
ghost use Rattle.expressions.specs.Pieces.{cut, is_number, number_of};
ghost use Rattle.expressions.specs.CronItems as cron;
ghost use Rattle.expr_grammar.specs.Items.{field_of, item_of, stepped_row};

use crate::bytes::{is_number, is_text, number};
use crate::cut::{Parts, cut_in_two};
use crate::field::{Field, greatest, least};
use crate::item::Item;
use crate::value::{is_name, step, value};

/// The item that a piece spells in a field, its numbers in range or not.
#[tactic(auto, unfolding(expressions::specs::CronItems::row))]
pub(crate) fn row(field: Field, text: &[u8]) -> Option<Item>
    ensures { option_map item_of result ≡ cron.row (field_of field) text.now }
{
    match cut_in_two(b'/', text) {
        Parts::One => base(field, text),
        Parts::Two(base, by) => stepped(field, base, by),
        Parts::More => None,
    }
}

/// An item without a step.
fn base(field: Field, text: &[u8]) -> Option<Item>
    ensures { option_map item_of result ≡ cron.row_of_parts (field_of field) (cut dash text.now ∷ []) }
{
    match cut_in_two(b'-', text) {
        Parts::One => single(field, text),
        Parts::Two(from, to) => range(field, from, to, 1),
        Parts::More => None,
    }
}

/// `*`, a value, or what stands alone.
fn single(field: Field, text: &[u8]) -> Option<Item>
    ensures { option_map item_of result ≡ cron.row_of_parts (field_of field) ((text.now ∷ []) ∷ []) }
{
    if is_text(text, b"*") {
        return Some(every(field, 1));
    }
    match value(field, text) {
        Some(value) => Some(Item::Values {
            from: value,
            to: value,
            by: 1,
        }),
        None => alone(field, text),
    }
}

/// Every value of a field, from the least on, in steps of a number.
fn every(field: Field, by: u16) -> Item
    ensures { item_of result ≡ cron.values (cron.least (field_of field)) (cron.greatest (field_of field)) by }
{
    Item::Values {
        from: least(field),
        to: greatest(field),
        by,
    }
}

/// From a value to another, in steps of a number.
fn range(field: Field, from: &[u8], to: &[u8], by: u16) -> Option<Item>
    ensures { option_map item_of result ≡ cron.range_row (field_of field) (Some by) from.now to.now }
{
    let from = value(field, from)?;
    let to = value(field, to)?;
    Some(Item::Values { from, to, by })
}

/// An item with a step.
fn stepped(field: Field, base: &[u8], by: &[u8]) -> Option<Item>
    ensures { option_map item_of result ≡ cron.row_of_parts (field_of field) (cut dash base.now ∷ cut dash by.now ∷ []) }
{
    let Some(by) = step_in(field, by) else {
        return None;
    };
    match cut_in_two(b'-', base) {
        Parts::One => on(field, base, by),
        Parts::Two(from, to) => range(field, from, to, by),
        Parts::More => None,
    }
}

fn step_in(field: Field, text: &[u8]) -> Option<u16>
    ensures { result ≡ cron.step_in (field_of field) text.now }
{
    match field {
        Field::DayOfWeek => None,
        _ => step(text),
    }
}

/// `*` or a value with a step.
fn on(field: Field, text: &[u8], by: u16) -> Option<Item>
    ensures { option_map item_of result ≡ stepped_row (field_of field) by text.now }
{
    if is_text(text, b"*") {
        return Some(every(field, by));
    }
    let from = value(field, text)?;
    Some(Item::Values {
        from,
        to: greatest(field),
        by,
    })
}

/// What stands alone in its field.
fn alone(field: Field, text: &[u8]) -> Option<Item>
    ensures { option_map item_of result ≡ cron.alone_row (field_of field) text.now }
{
    match field {
        Field::DayOfMonth => alone_in_month(text),
        Field::DayOfWeek => alone_in_week(text),
        _ => None,
    }
}

fn alone_in_month(text: &[u8]) -> Option<Item>
    ensures { option_map item_of result ≡ cron.alone_row cron.day_of_month text.now }
{
    if is_text(text, b"?") {
        return Some(Item::NoRule);
    }
    if is_name(text, b"L") {
        return Some(Item::LastDay);
    }
    near_weekday(text)
}

fn near_weekday(text: &[u8]) -> Option<Item>
    ensures { option_map item_of result ≡ cron.near_row text.now }
{
    let day = before_letter(b'W', text)?;
    let day = value(Field::DayOfMonth, day)?;
    Some(Item::NearWeekday(day))
}

fn alone_in_week(text: &[u8]) -> Option<Item>
    ensures { option_map item_of result ≡ cron.alone_row cron.day_of_week text.now }
{
    if is_text(text, b"?") {
        return Some(Item::NoRule);
    }
    if is_name(text, b"L") {
        return Some(Item::Saturday);
    }
    match last_of(text) {
        Some(item) => Some(item),
        None => nth(text),
    }
}

fn last_of(text: &[u8]) -> Option<Item>
    ensures { option_map item_of result ≡ cron.last_row text.now }
{
    let day = before_letter(b'L', text)?;
    let day = value(Field::DayOfWeek, day)?;
    Some(Item::LastOf(day))
}

fn nth(text: &[u8]) -> Option<Item>
    ensures { option_map item_of result ≡ cron.nth_row text.now }
{
    match cut_in_two(b'#', text) {
        Parts::Two(day, nth) => nth_of(day, nth),
        _ => None,
    }
}

fn nth_of(day: &[u8], nth: &[u8]) -> Option<Item>
    ensures { option_map item_of result ≡ cron.nth_parts (day.now, nth.now) }
{
    let day = value(Field::DayOfWeek, day)?;
    let nth = digit(nth)?;
    Some(Item::Nth(day, nth))
}

fn digit(text: &[u8]) -> Option<u16>
    ensures { result ≡ (if is_number 1 1 text.now then Some (number_of text.now) else None) }
{
    if !is_number(text, 1, 1) {
        return None;
    }
    Some(number(text) as u16)
}

/// What stands before the last byte, where that is this letter in either case.
fn before_letter<'a>(letter: u8, text: &'a [u8]) -> Option<&'a [u8]>
    requires { 0 < letter }
    ensures { option_copied result ≡ cron.before_letter letter text.entry.now }
{
    if text.is_empty() {
        return None;
    }
    let (front, last) = text.split_at(text.len() - 1);
    if last[0].to_ascii_uppercase() == letter {
        Some(front)
    } else {
        None
    }
}
