//! Values, names and steps in a cron's fields.
ghost use Rattle.std.specs.Prelude.{◌≡◌, ◌+◌, ◌-◌, ◌<◌, ◌≤◌, ◌^◌, length, map};
ghost use Rattle.std.specs.Option.{option_copied};
ghost use Rattle.expressions.specs.Pieces.{same, upper};
ghost use Rattle.expressions.specs.CronItems as cron;
ghost use Rattle.expr_grammar.specs.Items.{field_of};

use crate::bytes::{is_number, number};
use crate::field::Field;

/// The names of the months, from 1 on.
const MONTHS: &[[u8; 3]] = &[
    *b"JAN", *b"FEB", *b"MAR", *b"APR", *b"MAY", *b"JUN", *b"JUL", *b"AUG", *b"SEP", *b"OCT",
    *b"NOV", *b"DEC",
];

/// The names of the days of the week, from 1 on.
const DAYS: &[[u8; 3]] = &[
    *b"SUN", *b"MON", *b"TUE", *b"WED", *b"THU", *b"FRI", *b"SAT",
];

/// The value that a text spells in a field, in range or not.
pub(crate) fn value(field: Field, text: &[u8]) -> Option<u16>
    ensures { result ≡ cron.value (field_of field) text.now }
{
    if is_value_number(field, text) {
        return Some(number(text) as u16);
    }
    named(field, text)
}

fn is_value_number(field: Field, text: &[u8]) -> bool
    ensures { result ≡ cron.is_value_number (field_of field) text.now }
{
    match field {
        Field::Year => is_number(text, 4, 4),
        _ => is_number(text, 1, 2),
    }
}

fn named(field: Field, text: &[u8]) -> Option<u16>
    ensures { result ≡ cron.named (field_of field) text.now }
{
    match field {
        Field::Month => place_of(text, MONTHS),
        Field::DayOfWeek => place_of(text, DAYS),
        _ => None,
    }
}

/// The place of a text among names, from 1 on.
fn place_of(text: &[u8], names: &[[u8; 3]]) -> Option<u16>
    requires { length names.now ≤ 12 }
    ensures { result ≡ cron.place_from 1 (upper text.now) names.now }
{
    let mut place: u16 = 1;
    for name in names {
        if is_name(text, name) {
            return Some(place);
        }
        place += 1;
    }
    None
}

/// Whether a text is a name, in any letter case.
pub(crate) fn is_name(text: &[u8], name: &[u8]) -> bool
    ensures { result ≡ same (upper text.now) name.now }
{
    if text.len() != name.len() {
        return false;
    }
    for (at, byte) in text.iter().enumerate() {
        if byte.to_ascii_uppercase() != name[at] {
            return false;
        }
    }
    true
}

/// The step that a text spells: one to three digits.
pub(crate) fn step(text: &[u8]) -> Option<u16>
    ensures { result ≡ cron.step text.now }
{
    if !is_number(text, 1, 3) {
        return None;
    }
    Some(number(text) as u16)
}
