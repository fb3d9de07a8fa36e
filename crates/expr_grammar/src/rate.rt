//! Reads a rate.
ghost use Rattle.std.specs.Prelude.{◌≡◌, ◌+◌, ◌^◌, ◌<◌, ◌≤◌, ◌||◌, codes, length, Some};
ghost use Rattle.expressions.specs.Pieces.{same};
ghost use Rattle.expressions.specs.Spelling.{AreRateWords, Spells, count_of, unit_of};
ghost use Rattle.expressions.specs.ExpressionFaults.{count_fault, rate_fault, unit_fault, words_fault};
ghost use Rattle.expr_grammar.specs.Answers.{Answers, enclosed};
ghost use Rattle.expr_grammar.specs.WordsLeft.{left, texts};

use crate::bytes::{is_number, number};
use crate::fault::ExprFault;
use crate::form::has_bare_ends;
use crate::words::{Piece, Words, next_word};
use expressions::{Expr, Unit};

/// How many bytes stand before what `rate(` and `)` enclose.
const OPENING: usize = 5;

/// Reads what `rate(` and `)` enclose.
#[tactic(auto, using(crate::proofs::RateLaws::rate_spelled))]
pub(crate) fn read_rate(inner: &[u8]) -> Result<Expr, ExprFault>
    requires { 5 + length inner.now < 2 ^ 64 }
    ensures { Answers result (words_fault rate_fault 5 inner.now) (Spells (enclosed (codes "rate(") inner.now)) }
{
    if !has_bare_ends(inner) {
        return Err(ExprFault::SHAPE);
    }
    match read_words(Words {
        rest: inner,
        at: OPENING,
    }) {
        Ok((count, unit)) => Ok(Expr::Rate { count, unit }),
        Err(fault) => Err(fault),
    }
}

/// Reads the two words of a rate.
fn read_words(words: Words) -> Result<(u32, Unit), ExprFault>
    requires { words.at + length words.rest.now < 2 ^ 64 }
    ensures { Answers result (rate_fault (left words.entry)) (λ rate. AreRateWords (texts (left words.entry)) rate.0 rate.1) }
{
    let Some((value, words)) = next_word(words) else {
        return Err(ExprFault::SHAPE);
    };
    let count = read_count(value);
    let Some((name, words)) = next_word(words) else {
        return Err(ExprFault::SHAPE);
    };
    let unit = read_unit(name);
    match next_word(words) {
        Some(_) => Err(ExprFault::SHAPE),
        None => Ok((count?, unit?)),
    }
}

/// Reads the count: one to six digits, the first of several no zero, and not 0.
fn read_count(word: Piece) -> Result<u32, ExprFault>
    ensures { Answers result (count_fault word.entry.at (count_of word.entry.text.now))
        (λ count. (count_of word.entry.text.now ≡ Some count) × (1 ≤ count)) }
{
    match count_of(word.text) {
        None => Err(ExprFault::bad_number(word.at)),
        Some(0) => Err(ExprFault::out_of_range(word.at)),
        Some(count) => Ok(count),
    }
}

#[tactic(auto, using(crate::proofs::Digits::number_digits, crate::proofs::Digits::number_long, crate::proofs::Digits::number_short))]
fn count_of(text: &[u8]) -> Option<u32>
    ensures { result ≡ count_of text.now }
{
    if !is_number(text, 1, 6) {
        return None;
    }
    if text.len() != 1 && text[0] == b'0' {
        return None;
    }
    Some(number(text))
}

/// Reads the unit, in the singular or in the plural.
fn read_unit(word: Piece) -> Result<Unit, ExprFault>
    ensures { Answers result (unit_fault word.entry.at (unit_of word.entry.text.now)) (λ unit. unit_of word.entry.text.now ≡ Some unit) }
{
    match unit_of(word.text) {
        None => Err(ExprFault::bad_number(word.at)),
        Some(unit) => Ok(unit),
    }
}

fn unit_of(text: &[u8]) -> Option<Unit>
    ensures { result ≡ unit_of text.now }
{
    if is_either(text, b"minute", b"minutes") {
        return Some(Unit::Minute);
    }
    if is_either(text, b"hour", b"hours") {
        return Some(Unit::Hour);
    }
    if is_either(text, b"day", b"days") {
        return Some(Unit::Day);
    }
    None
}

fn is_either(text: &[u8], singular: &[u8], plural: &[u8]) -> bool
    ensures { result ≡ (same text.now singular.now || same text.now plural.now) }
{
    text == singular || text == plural
}
