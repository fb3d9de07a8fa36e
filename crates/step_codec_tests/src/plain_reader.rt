//! A plain reader of changes, by the table of their fields. It reads nothing but the first fault.
use crate::samples::EXPRESSION;
use sched_plain::{
    LAST_MOMENT, LEAST_AGE, LONGEST_AGE, LONGEST_ARN, LONGEST_DESCRIPTION, LONGEST_INPUT,
    LONGEST_WINDOW, MOST_RETRIES,
};
use step_codec::StepFault;

/// What a text may be.
#[derive(Debug, Clone, Copy)]
enum Rule {
    Name,
    Token,
    Zone,
    /// Characters, no fewer and no more than so many.
    Characters(usize, usize),
    /// At most so many bytes of UTF-8.
    Bytes(usize),
    /// Nothing, or an arn.
    ArnOrNone,
    /// This text alone.
    Only(&'static str),
}

/// How a field is spelled, and what it may be.
#[derive(Debug, Clone, Copy)]
enum Field {
    /// A number of so many bytes, from the least to the most one.
    Number(usize, u64, u64),
    /// A text behind its length in so many bytes.
    Text(usize, Rule),
    /// A moment that may be left out.
    Date,
}

/// The moment and the kind.
const HEAD: [Field; 2] = [Field::Number(8, 0, LAST_MOMENT), Field::Number(1, 1, 5)];

/// What names a schedule.
const NAMES: [Field; 3] = [
    Field::Text(1, Rule::Token),
    Field::Text(1, Rule::Name),
    Field::Text(1, Rule::Name),
];

/// What names a group.
const GROUP: [Field; 3] = [
    Field::Text(1, Rule::Token),
    Field::Text(1, Rule::Name),
    Field::Text(1, Rule::Only("")),
];

/// What a schedule says.
const CONTENT: [Field; 14] = [
    Field::Text(2, Rule::Characters(0, LONGEST_DESCRIPTION)),
    Field::Text(2, Rule::Only(EXPRESSION)),
    Field::Text(1, Rule::Zone),
    Field::Date,
    Field::Date,
    Field::Number(1, 0, 1),
    Field::Number(1, 0, 1),
    Field::Number(2, 0, LONGEST_WINDOW as u64),
    Field::Number(1, 0, MOST_RETRIES as u64),
    Field::Number(4, LEAST_AGE as u64, LONGEST_AGE as u64),
    Field::Text(2, Rule::Characters(1, LONGEST_ARN)),
    Field::Text(2, Rule::Characters(1, LONGEST_ARN)),
    Field::Text(2, Rule::ArnOrNone),
    Field::Text(4, Rule::Bytes(LONGEST_INPUT)),
];

/// Whether bytes are a word of letters, digits and other bytes.
fn is_word(bytes: &[u8], longest: usize, others: &[u8]) -> bool {
    for byte in bytes {
        if !byte.is_ascii_alphanumeric() && !others.contains(byte) {
            return false;
        }
    }
    !bytes.is_empty() && bytes.len() <= longest
}

/// Whether no slash is first, last or behind another.
fn has_slashes_inside(bytes: &[u8]) -> bool {
    let mut behind_slash = true;
    for byte in bytes {
        if *byte == b'/' && behind_slash {
            return false;
        }
        behind_slash = *byte == b'/';
    }
    !behind_slash
}

fn has_characters(bytes: &[u8], least: usize, most: usize) -> bool {
    match str::from_utf8(bytes) {
        Ok(text) => {
            let count = text.chars().count();
            least <= count && count <= most
        }
        Err(_) => false,
    }
}

fn keeps(rule: Rule, bytes: &[u8]) -> bool {
    match rule {
        Rule::Name => is_word(bytes, 64, b"-_."),
        Rule::Token => bytes.is_empty() || is_word(bytes, 64, b"-_"),
        Rule::Zone => is_word(bytes, 50, b"_-+/") && has_slashes_inside(bytes),
        Rule::Characters(least, most) => has_characters(bytes, least, most),
        Rule::Bytes(most) => bytes.len() <= most && str::from_utf8(bytes).is_ok(),
        Rule::ArnOrNone => bytes.is_empty() || has_characters(bytes, 1, LONGEST_ARN),
        Rule::Only(text) => bytes == text.as_bytes(),
    }
}

/// The number of so many bytes at a place, where they are there.
fn number_at(payload: &[u8], at: usize, width: usize) -> Result<u64, StepFault> {
    let mut number: u64 = 0;
    for k in 0..width {
        let Some(byte) = payload.get(at.wrapping_add(k)) else {
            return Err(StepFault::Short);
        };
        number = number.wrapping_mul(256).wrapping_add(u64::from(*byte));
    }
    Ok(number)
}

/// Where a field ends that begins at a place, where it keeps its rule.
fn kept(holds: bool, at: usize, length: usize) -> Result<usize, StepFault> {
    if holds {
        Ok(at.wrapping_add(length))
    } else {
        Err(StepFault::BadField { at })
    }
}

fn end_of_text(payload: &[u8], at: usize, width: usize, rule: Rule) -> Result<usize, StepFault> {
    let length = number_at(payload, at, width)? as usize;
    let begin = at.saturating_add(width);
    let end = begin.saturating_add(length);
    if end > payload.len() {
        return Err(StepFault::Short);
    }
    kept(keeps(rule, &payload[begin..end]), at, end.wrapping_sub(at))
}

fn end_of_date(payload: &[u8], at: usize) -> Result<usize, StepFault> {
    match number_at(payload, at, 1)? {
        0 => Ok(at.wrapping_add(1)),
        1 => {
            let moment = number_at(payload, at.wrapping_add(1), 8)?;
            kept(moment <= LAST_MOMENT, at, 9)
        }
        _ => Err(StepFault::BadField { at }),
    }
}

/// Where the field that begins at a place ends, or its fault.
fn end_of(payload: &[u8], at: usize, field: Field) -> Result<usize, StepFault> {
    match field {
        Field::Number(width, least, most) => {
            let number = number_at(payload, at, width)?;
            kept(least <= number && number <= most, at, width)
        }
        Field::Text(width, rule) => end_of_text(payload, at, width, rule),
        Field::Date => end_of_date(payload, at),
    }
}

fn end_of_all(payload: &[u8], begin: usize, fields: &[Field]) -> Result<usize, StepFault> {
    let mut at = begin;
    for field in fields {
        at = end_of(payload, at, *field)?;
    }
    Ok(at)
}

fn end_of_change(payload: &[u8]) -> Result<usize, StepFault> {
    if number_at(payload, 0, 1)? != 3 {
        return Err(StepFault::BadTag { at: 0 });
    }
    let at = end_of_all(payload, 1, &HEAD)?;
    let kind = number_at(payload, 9, 1)?;
    if kind > 3 {
        return end_of_all(payload, at, &GROUP);
    }
    let at = end_of_all(payload, at, &NAMES)?;
    if kind == 3 {
        return Ok(at);
    }
    end_of_all(payload, at, &CONTENT)
}

/// The first fault of a payload that is a change, or that has another tag than any step.
pub fn fault_of_change(payload: &[u8]) -> Option<StepFault> {
    match end_of_change(payload) {
        Err(fault) => Some(fault),
        Ok(end) => if end == payload.len() {
            None
        } else {
            Some(StepFault::Long { at: end })
        },
    }
}
