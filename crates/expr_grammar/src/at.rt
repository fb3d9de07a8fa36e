//! Reads an `at`.
ghost use Rattle.std.specs.Prelude.{◌≡◌, ◌+◌, ◌≤◌, true, map, length, take, drop, codes};
ghost use Rattle.std.specs.List.{list_all};
ghost use Rattle.std.specs.Option.{option_map};
ghost use Rattle.expressions.specs.Pieces.{is_digit, same};
ghost use Rattle.expressions.specs.Spelling.{Spells};
ghost use Rattle.expressions.specs.ExpressionFaults.{at_fault, group, groups_fault, masked};
ghost use Rattle.expr_grammar.specs.Answers.{Answers, enclosed, told};
ghost use Rattle.expr_grammar.specs.Reading.{civil_fault, civil_of, time_fault};

use crate::bytes::{is_digit, number};
use crate::fault::ExprFault;
use expressions::{Civil, Expr, FIRST_YEAR, LAST_YEAR};
use jiff_core::civil::days_in_month;

/// What `at(` and `)` enclose, with each digit as 0.
const FORM: &[u8; 19] = b"0000-00-00T00:00:00";

/// How many bytes stand before what `at(` and `)` enclose.
const OPENING: usize = 3;

/// Reads what `at(` and `)` enclose.
pub(crate) fn read_at(inner: &[u8]) -> Result<Expr, ExprFault>
    ensures { Answers result (at_fault inner.now) (Spells (enclosed (codes "at(") inner.now)) }
{
    match read_civil(inner) {
        Ok(civil) => Ok(Expr::At(civil)),
        Err(fault) => Err(fault),
    }
}

fn read_civil(inner: &[u8]) -> Result<Civil, ExprFault>
    ensures { Answers result (at_fault inner.now) (λ civil. civil ≡ civil_of inner.now) }
{
    if !has_form(inner) {
        return Err(ExprFault::SHAPE);
    }
    let civil = groups(inner);
    match civil_fault(&civil) {
        None => Ok(civil),
        Some(fault) => Err(fault),
    }
}

fn has_form(inner: &[u8]) -> bool
    ensures { result ≡ same (map masked inner.now) (codes "0000-00-00T00:00:00") }
{
    if inner.len() != FORM.len() {
        return false;
    }
    for (at, byte) in inner.iter().enumerate() {
        if masked(*byte) != FORM[at] {
            return false;
        }
    }
    true
}

/// A digit as 0, any other byte as it is.
fn masked(byte: u8) -> u8
    ensures { result ≡ masked byte }
{
    if is_digit(byte) { b'0' } else { byte }
}

fn groups(inner: &[u8]) -> Civil
    requires { map masked inner.now ≡ codes "0000-00-00T00:00:00" }
    ensures { result ≡ civil_of inner.now }
{
    Civil {
        year: year(inner),
        month: two_digit_number(inner, 5),
        day: two_digit_number(inner, 8),
        hour: two_digit_number(inner, 11),
        minute: two_digit_number(inner, 14),
        second: two_digit_number(inner, 17),
    }
}

fn year(inner: &[u8]) -> u16
    requires long { 4 ≤ length inner.now }
    requires digits { list_all is_digit (take 4 (drop 0 inner.now)) ≡ true }
    ensures { result ≡ group inner.now 0 4 }
{
    number(&inner[0..4]) as u16
}

fn two_digit_number(inner: &[u8], at: usize) -> u8
    requires long { at + 2 ≤ length inner.now }
    requires digits { list_all is_digit (take 2 (drop at inner.now)) ≡ true }
    ensures { result ≡ group inner.now at 2 }
{
    number(&inner[at..at + 2]) as u8
}

/// The fault of the first group that is outside its values.
fn civil_fault(civil: &Civil) -> Option<ExprFault>
    ensures { option_map told result ≡ civil_fault civil.now }
{
    if civil.year < FIRST_YEAR || civil.year > LAST_YEAR {
        return Some(ExprFault::out_of_range(OPENING));
    }
    if civil.month < 1 || civil.month > 12 {
        return Some(ExprFault::out_of_range(OPENING + 5));
    }
    if civil.day < 1 || civil.day > days_in_month(civil.year as i16, civil.month) {
        return Some(ExprFault::out_of_range(OPENING + 8));
    }
    time_fault(civil)
}

fn time_fault(civil: &Civil) -> Option<ExprFault>
    ensures { option_map told result ≡ time_fault civil.now }
{
    if civil.hour >= 24 {
        return Some(ExprFault::out_of_range(OPENING + 11));
    }
    if civil.minute >= 60 {
        return Some(ExprFault::out_of_range(OPENING + 14));
    }
    if civil.second >= 60 {
        return Some(ExprFault::out_of_range(OPENING + 17));
    }
    None
}
