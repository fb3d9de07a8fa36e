//! Texts behind their length: names, tokens and what a schedule says in words.
ghost use Rattle.std.specs.Prelude.{◌≡◌, [], ◌↔◌, IsTrue, IfOk, IfSome, is_some, is_none, nat_le, ◌&&◌, length};
ghost use Rattle.step_codec.specs.Cells.{One, Two, Four};
ghost use Rattle.std.specs.Str.{is_utf8};
ghost use Rattle.expressions.specs.ExpressionFaults.{fault};
ghost use Rattle.expressions.specs.Spelling.{Spells};
ghost use Rattle.sched_plain.specs.Validity.{character_count};
ghost use Rattle.step_codec.specs.Faults.{Reads};
ghost use Rattle.step_codec.specs.Payload.{IsFilled, or_empty};
ghost use Rattle.step_codec.specs.Rules as rule;
ghost use Rattle.step_codec.specs.Tables.{kept, text_at, words_at};

use crate::fault::FieldFault;
use crate::numbers::{cut, number_8, number_16, number_32};
use expr_grammar::read_expr;
use plain_words::TextFault;
use sched_plain::{
    Blob, Expr, LONGEST_ARN, LONGEST_DESCRIPTION, LONGEST_EXPRESSION, LONGEST_INPUT, LONGEST_ZONE,
    Name, NameFault, Text, Token, ZoneName,
};
use std::alloc::Global;

/// A text behind its length in one byte.
#[tactic(auto, unfolding(crate::specs::Tables::words_at))]
fn words_8(bytes: &[u8]) -> Result<(&[u8], &[u8]), FieldFault>
    ensures { Reads (λ x. (x.0.now, x.1.now)) result (words_at One bytes.now) }
{
    let (length, behind) = number_8(bytes)?;
    cut(behind, length as usize)
}

/// A text behind its length in two bytes.
#[tactic(auto, unfolding(crate::specs::Tables::words_at))]
fn words_16(bytes: &[u8]) -> Result<(&[u8], &[u8]), FieldFault>
    ensures { Reads (λ x. (x.0.now, x.1.now)) result (words_at Two bytes.now) }
{
    let (length, behind) = number_16(bytes)?;
    cut(behind, length as usize)
}

/// A text behind its length in four bytes.
#[tactic(auto, unfolding(crate::specs::Tables::words_at))]
fn words_32(bytes: &[u8]) -> Result<(&[u8], &[u8]), FieldFault>
    ensures { Reads (λ x. (x.0.now, x.1.now)) result (words_at Four bytes.now) }
{
    let (length, behind) = number_32(bytes)?;
    cut(behind, length as usize)
}

fn name_of(alloc: Global, text: &[u8], left: usize) -> Result<Name, FieldFault>
    ensures { Reads (λ x. x) result (kept (rule.is_name text.now) left text.now) }
{
    match Name::read(alloc, text) {
        Ok(name) => Ok(name),
        Err(NameFault::OutOfMemory) => Err(FieldFault::NoMemory),
        Err(_) => Err(FieldFault::Broken { left }),
    }
}

fn zone_name_of(alloc: Global, text: &[u8], left: usize) -> Result<ZoneName, FieldFault>
    ensures { Reads (λ x. x) result (kept (rule.is_zone_name text.now) left text.now) }
{
    match ZoneName::read(alloc, text) {
        Ok(name) => Ok(name),
        Err(NameFault::OutOfMemory) => Err(FieldFault::NoMemory),
        Err(_) => Err(FieldFault::Broken { left }),
    }
}

fn token_of(alloc: Global, text: &[u8], left: usize) -> Result<Option<Token>, FieldFault>
    ensures read { Reads or_empty result (kept (rule.is_token_or_none text.now) left text.now) }
    ensures filled { IfOk result IsFilled }
{
    if text.is_empty() {
        return Ok(None);
    }
    match Token::read(alloc, text) {
        Ok(token) => Ok(Some(token)),
        Err(NameFault::OutOfMemory) => Err(FieldFault::NoMemory),
        Err(_) => Err(FieldFault::Broken { left }),
    }
}

/// The name of a schedule or a group.
#[tactic(auto, unfolding(crate::specs::Tables::text_at))]
pub(crate) fn name(alloc: Global, bytes: &[u8]) -> Result<(Name, &[u8]), FieldFault>
    ensures { Reads (λ x. (x.0, x.1.now)) result (text_at One rule.is_name bytes.now) }
{
    let (text, behind) = words_8(bytes)?;
    let name = name_of(alloc, text, bytes.len())?;
    Ok((name, behind))
}

/// No name: a text without a byte.
#[tactic(auto, unfolding(crate::specs::Tables::text_at))]
pub(crate) fn no_name(bytes: &[u8]) -> Result<((), &[u8]), FieldFault>
    ensures { Reads (λ x. ([], x.1.now)) result (text_at One rule.is_empty bytes.now) }
{
    let (text, behind) = words_8(bytes)?;
    if !text.is_empty() {
        return Err(FieldFault::Broken { left: bytes.len() });
    }
    Ok(((), behind))
}

/// The name of a time zone.
#[tactic(auto, unfolding(crate::specs::Tables::text_at))]
pub(crate) fn zone_name(alloc: Global, bytes: &[u8]) -> Result<(ZoneName, &[u8]), FieldFault>
    ensures { Reads (λ x. (x.0, x.1.now)) result (text_at One rule.is_zone_name bytes.now) }
{
    let (text, behind) = words_8(bytes)?;
    let name = zone_name_of(alloc, text, bytes.len())?;
    Ok((name, behind))
}

/// A client token, where one was given.
#[tactic(auto, unfolding(crate::specs::Tables::text_at))]
pub(crate) fn token(alloc: Global, bytes: &[u8]) -> Result<(Option<Token>, &[u8]), FieldFault>
    ensures read { Reads (λ x. (or_empty x.0, x.1.now)) result (text_at One rule.is_token_or_none bytes.now) }
    ensures filled { IfOk result (λ x. IsFilled x.0) }
{
    let (text, behind) = words_8(bytes)?;
    let token = token_of(alloc, text, bytes.len())?;
    Ok((token, behind))
}

/// The bytes of a zone.
#[tactic(auto, unfolding(crate::specs::Tables::text_at))]
pub(crate) fn zone_bytes(alloc: Global, bytes: &[u8]) -> Result<(Blob, &[u8]), FieldFault>
    ensures { Reads (λ x. (x.0, x.1.now)) result (text_at Four rule.is_zone bytes.now) }
{
    let (zone, behind) = words_32(bytes)?;
    if zone.len() > LONGEST_ZONE {
        return Err(FieldFault::Broken { left: bytes.len() });
    }
    let zone = blob_of(alloc, zone)?;
    Ok((zone, behind))
}

fn blob_of(alloc: Global, bytes: &[u8]) -> Result<Blob, FieldFault>
    ensures { Reads (λ x. x) result (Ok bytes.now) }
{
    match Vec::from_slice(alloc, bytes) {
        Ok(bytes) => Ok(Blob::from_vec(bytes)),
        Err(_) => Err(FieldFault::NoMemory),
    }
}

/// How many characters a text has: its bytes but for those that continue a character.
fn character_count(text: &[u8]) -> usize
    ensures { result ≡ character_count text.now }
{
    text.iter()
        .filter(|byte| !(128 <= **byte && **byte < 192))
        .count()
}

/// Whether the text has so many characters.
fn has_length(text: &[u8], least: usize, most: usize) -> bool
    ensures { result ≡ (nat_le least (character_count text.now) && nat_le (character_count text.now) most) }
{
    let count = character_count(text);
    least <= count && count <= most
}

/// A text in UTF-8, of any length.
#[tactic(auto, using(crate::proofs::Utf8::utf8_is, crate::proofs::Utf8::utf8_is_not))]
fn utf8_of(alloc: Global, text: &[u8], left: usize) -> Result<Text, FieldFault>
    ensures { Reads (λ x. x) result (kept (is_utf8 text.now) left text.now) }
{
    match Text::read(alloc, text) {
        Ok(text) => Ok(text),
        Err(TextFault::BadByte { .. }) => Err(FieldFault::Broken { left }),
        Err(TextFault::OutOfMemory) => Err(FieldFault::NoMemory),
    }
}

/// A text of so many characters.
fn text_of(
    alloc: Global,
    text: &[u8],
    left: usize,
    least: usize,
    most: usize,
) -> Result<Text, FieldFault>
    ensures { Reads (λ x. x) result (kept (rule.is_text least most text.now) left text.now) }
{
    if !has_length(text, least, most) {
        return Err(FieldFault::Broken { left });
    }
    utf8_of(alloc, text, left)
}

/// The expression that a text spells.
fn spelled_by(text: &[u8]) -> Option<Expr>
    ensures spells { IfSome result (Spells text.now) }
    ensures is { is_some result ≡ is_none (fault text.now) }
{
    match read_expr(text) {
        Ok(expr) => Some(expr),
        Err(_) => None,
    }
}

/// A text that spells an expression, and the expression.
fn expression_of(alloc: Global, text: &[u8], left: usize) -> Result<(Text, Expr), FieldFault>
    ensures read { Reads (λ x. x.0) result (kept (rule.is_expression text.now) left text.now) }
    ensures spells { IfOk result (λ x. Spells text.now x.1) }
{
    match spelled_by(text) {
        None => Err(FieldFault::Broken { left }),
        Some(expr) => {
            let text = text_of(alloc, text, left, 1, LONGEST_EXPRESSION)?;
            Ok((text, expr))
        }
    }
}

fn arn_or_none(alloc: Global, text: &[u8], left: usize) -> Result<Option<Text>, FieldFault>
    ensures read { Reads or_empty result (kept (rule.is_arn_or_none text.now) left text.now) }
    ensures filled { IfOk result IsFilled }
{
    if text.is_empty() {
        return Ok(None);
    }
    let arn = text_of(alloc, text, left, 1, LONGEST_ARN)?;
    Ok(Some(arn))
}

fn input_or_none(alloc: Global, text: &[u8], left: usize) -> Result<Option<Text>, FieldFault>
    ensures read { Reads or_empty result (kept (rule.is_input_or_none text.now) left text.now) }
    ensures filled { IfOk result IsFilled }
{
    if text.is_empty() {
        return Ok(None);
    }
    if text.len() > LONGEST_INPUT {
        return Err(FieldFault::Broken { left });
    }
    let input = utf8_of(alloc, text, left)?;
    Ok(Some(input))
}

/// A description, which may be empty.
#[tactic(auto, unfolding(crate::specs::Tables::text_at))]
pub(crate) fn description(alloc: Global, bytes: &[u8]) -> Result<(Text, &[u8]), FieldFault>
    ensures { Reads (λ x. (x.0, x.1.now)) result (text_at Two rule.is_description bytes.now) }
{
    let (text, behind) = words_16(bytes)?;
    let description = text_of(alloc, text, bytes.len(), 0, LONGEST_DESCRIPTION)?;
    Ok((description, behind))
}

/// A text that spells an expression, with the expression.
#[tactic(auto, unfolding(crate::specs::Tables::text_at))]
pub(crate) fn expression(alloc: Global, bytes: &[u8]) -> Result<((Text, Expr), &[u8]), FieldFault>
    ensures read { Reads (λ x. (x.0.0, x.1.now)) result (text_at Two rule.is_expression bytes.now) }
    ensures spells { IfOk result (λ x. Spells x.0.0 x.0.1) }
{
    let (text, behind) = words_16(bytes)?;
    let expression = expression_of(alloc, text, bytes.len())?;
    Ok((expression, behind))
}

/// The arn of a target or a role.
#[tactic(auto, unfolding(crate::specs::Tables::text_at))]
pub(crate) fn arn(alloc: Global, bytes: &[u8]) -> Result<(Text, &[u8]), FieldFault>
    ensures { Reads (λ x. (x.0, x.1.now)) result (text_at Two rule.is_arn bytes.now) }
{
    let (text, behind) = words_16(bytes)?;
    let arn = text_of(alloc, text, bytes.len(), 1, LONGEST_ARN)?;
    Ok((arn, behind))
}

/// The arn of a queue, where one is named.
#[tactic(auto, unfolding(crate::specs::Tables::text_at))]
pub(crate) fn queue(alloc: Global, bytes: &[u8]) -> Result<(Option<Text>, &[u8]), FieldFault>
    ensures read { Reads (λ x. (or_empty x.0, x.1.now)) result (text_at Two rule.is_arn_or_none bytes.now) }
    ensures filled { IfOk result (λ x. IsFilled x.0) }
{
    let (text, behind) = words_16(bytes)?;
    let queue = arn_or_none(alloc, text, bytes.len())?;
    Ok((queue, behind))
}

/// What a target is sent, where something is.
#[tactic(auto, unfolding(crate::specs::Tables::text_at))]
pub(crate) fn input(alloc: Global, bytes: &[u8]) -> Result<(Option<Text>, &[u8]), FieldFault>
    ensures read { Reads (λ x. (or_empty x.0, x.1.now)) result (text_at Four rule.is_input_or_none bytes.now) }
    ensures filled { IfOk result (λ x. IsFilled x.0) }
{
    let (text, behind) = words_32(bytes)?;
    let input = input_or_none(alloc, text, bytes.len())?;
    Ok((input, behind))
}
