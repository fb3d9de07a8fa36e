//! The names of a query that are given, each with what its rule says of it.
ghost use Rattle.std.specs.Prelude.{◌≡◌, IfOk, true, false, codes};
ghost use Rattle.plain_words.specs.declared.limits.TheConstants.{LONGEST_ARN};
ghost use Rattle.request_fields.specs.Words as word;
ghost use Rattle.request_calls.specs.Calls as spec;
ghost use Rattle.request_calls.specs.Queries.{asked_by};

use crate::query::{Pair, value_of};
use http_wire::number_within;
use request_fields::{around, name_word, one_of, text_word, token_word};
use sched_plain::{LONGEST_ARN, Name, Text, Token};
use std::alloc::{AllocError, Global};

/// The most digits of a count of rows.
const COUNT_DIGITS: usize = 3;
/// The greatest number of so many digits.
const MOST_COUNT: u64 = 999;
/// The most rows that a list shows.
pub(crate) const MOST_ROWS: u8 = 100;
/// The most digits of a letter's number.
const LETTER_DIGITS: usize = 19;
/// The greatest number of so many digits.
const MOST_LETTER: u64 = 9_999_999_999_999_999_999;

/// The name of a schedule or a group.
pub(crate) fn name_asked(
    alloc: Global,
    asked: &[Pair],
    name: &str,
) -> Result<Option<Option<Name>>, AllocError>
    ensures { IfOk result (λ found. found ≡ asked_by word.name_word name.now asked.now) }
{
    match value_of(name, asked) {
        Some(text) => Ok(Some(name_word(alloc, text.as_bytes())?)),
        None => Ok(None),
    }
}

/// A client token.
pub(crate) fn token_asked(
    alloc: Global,
    asked: &[Pair],
    name: &str,
) -> Result<Option<Option<Token>>, AllocError>
    ensures { IfOk result (λ found. found ≡ asked_by word.token_word name.now asked.now) }
{
    match value_of(name, asked) {
        Some(text) => Ok(Some(token_word(alloc, text.as_bytes())?)),
        None => Ok(None),
    }
}

/// What names begin with.
pub(crate) fn prefix_asked(
    alloc: Global,
    asked: &[Pair],
    name: &str,
) -> Result<Option<Option<Text>>, AllocError>
    ensures { IfOk result (λ found. found ≡ asked_by word.name_word name.now asked.now) }
{
    match value_of(name, asked) {
        Some(text) => Ok(Some(prefix_word(alloc, text)?)),
        None => Ok(None),
    }
}

fn prefix_word(alloc: Global, text: &str) -> Result<Option<Text>, AllocError>
    ensures { IfOk result (λ found. found ≡ word.name_word text.now) }
{
    match name_word(alloc, text.as_bytes())? {
        Some(_) => Ok(Some(Text::from_string(String::from_str(alloc, text)?))),
        None => Ok(None),
    }
}

/// The arn of a queue, whatever it says.
pub(crate) fn arn_asked(
    alloc: Global,
    asked: &[Pair],
    name: &str,
) -> Result<Option<Option<Text>>, AllocError>
    ensures { IfOk result (λ found. found ≡ asked_by (word.text_word 1 LONGEST_ARN) name.now asked.now) }
{
    match value_of(name, asked) {
        Some(text) => Ok(Some(text_word(alloc, text, 1, LONGEST_ARN)?)),
        None => Ok(None),
    }
}

/// How many rows a list may show.
pub(crate) fn count_asked(asked: &[Pair], name: &str) -> Option<Option<u8>>
    ensures { result ≡ asked_by spec.count_word name.now asked.now }
{
    match value_of(name, asked) {
        Some(text) => Some(count_word(text.as_bytes())),
        None => None,
    }
}

fn count_word(text: &[u8]) -> Option<u8>
    ensures { result ≡ spec.count_word text.now }
{
    match number_within(text, COUNT_DIGITS, MOST_COUNT) {
        Some(count) if 1 <= count && count <= MOST_ROWS as u64 => Some(count as u8),
        _ => None,
    }
}

/// The number of a letter.
pub(crate) fn letter_asked(asked: &[Pair], name: &str) -> Option<Option<u64>>
    ensures { result ≡ asked_by spec.letter_word name.now asked.now }
{
    match value_of(name, asked) {
        Some(text) => Some(number_within(text.as_bytes(), LETTER_DIGITS, MOST_LETTER)),
        None => None,
    }
}

/// Whether schedules are enabled.
pub(crate) fn state_asked(asked: &[Pair], name: &str) -> Option<Option<bool>>
    ensures { result ≡ asked_by (word.one_of (codes "ENABLED") (codes "DISABLED")) name.now asked.now }
{
    match value_of(name, asked) {
        Some(text) => Some(one_of(text, "ENABLED", "DISABLED")),
        None => None,
    }
}

/// A place in the list of schedules: a group and a name.
pub(crate) fn place_asked(
    alloc: Global,
    asked: &[Pair],
    name: &str,
) -> Result<Option<Option<(Name, Name)>>, AllocError>
    ensures { IfOk result (λ found. found ≡ asked_by spec.place_word name.now asked.now) }
{
    match value_of(name, asked) {
        Some(text) => Ok(Some(place_word(alloc, text.as_bytes())?)),
        None => Ok(None),
    }
}

fn place_word(alloc: Global, text: &[u8]) -> Result<Option<(Name, Name)>, AllocError>
    ensures { IfOk result (λ found. found ≡ spec.place_word text.now) }
{
    match around(b'/', text) {
        Some((group, name)) => place_of(alloc, group, name),
        None => Ok(None),
    }
}

fn place_of(alloc: Global, group: &[u8], name: &[u8]) -> Result<Option<(Name, Name)>, AllocError>
    ensures { IfOk result (λ found. found ≡ spec.place_of group.now name.now) }
{
    let Some(group) = name_word(alloc, group)? else {
        return Ok(None);
    };
    match name_word(alloc, name)? {
        Some(name) => Ok(Some((group, name))),
        None => Ok(None),
    }
}
