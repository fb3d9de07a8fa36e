//! What texts are values of fields.
ghost use Rattle.std.specs.Prelude.{◌≡◌, ◌==◌, ◌<◌, IfOk, IfSome, length, option_copied, position};
ghost use Rattle.std.specs.List.{list_all};
ghost use Rattle.std.specs.Option.{option_map};
ghost use Rattle.plain_words.specs.Words.{is_token_byte};
ghost use Rattle.expressions.specs.Spelling.{Spells};
ghost use Rattle.sched_plain.specs.Validity.{character_count};
ghost use Rattle.request_fields.specs.Words as word;

use expr_grammar::read_expr;
use sched_plain::{
    Expr, LONGEST_ARN, LONGEST_EXPRESSION, LONGEST_INPUT, Name, NameFault, Text, Token, ZoneName,
};
use std::alloc::{AllocError, Global};
use target_link::{SpotFault, address_of};

/// How many characters a text has: its bytes but for those that continue a character.
fn character_count(text: &str) -> usize
    ensures { result ≡ character_count text.now }
{
    text.as_bytes()
        .iter()
        .filter(|byte| !(128 <= **byte && **byte < 192))
        .count()
}

/// Whether a text has so many characters.
pub fn has_characters(text: &str, least: usize, most: usize) -> bool
    ensures { result ≡ word.has_characters least most text.now }
{
    let count = character_count(text);
    least <= count && count <= most
}

/// A text of its own.
fn owned(alloc: Global, text: &str) -> Result<Text, AllocError>
    ensures { IfOk result (λ it. it ≡ text.now) }
{
    Ok(Text::from_string(String::from_str(alloc, text)?))
}

/// The text, where it has so many characters.
pub fn text_word(
    alloc: Global,
    text: &str,
    least: usize,
    most: usize,
) -> Result<Option<Text>, AllocError>
    ensures { IfOk result (λ found. found ≡ word.text_word least most text.now) }
{
    if !has_characters(text, least, most) {
        return Ok(None);
    }
    Ok(Some(owned(alloc, text)?))
}

/// The name of a schedule or a group that a text is.
pub fn name_word(alloc: Global, text: &[u8]) -> Result<Option<Name>, AllocError>
    ensures { IfOk result (λ found. found ≡ word.name_word text.now) }
{
    match Name::read(alloc, text) {
        Ok(name) => Ok(Some(name)),
        Err(NameFault::OutOfMemory) => Err(AllocError),
        Err(_) => Ok(None),
    }
}

/// The client token that a text is.
pub fn token_word(alloc: Global, text: &[u8]) -> Result<Option<Token>, AllocError>
    ensures { IfOk result (λ found. found ≡ word.token_word text.now) }
{
    match Token::read(alloc, text) {
        Ok(token) => Ok(Some(token)),
        Err(NameFault::OutOfMemory) => Err(AllocError),
        Err(_) => Ok(None),
    }
}

/// The name of a time zone that a text is.
pub fn zone_word(alloc: Global, text: &[u8]) -> Result<Option<ZoneName>, AllocError>
    ensures { IfOk result (λ found. found ≡ word.zone_word text.now) }
{
    match ZoneName::read(alloc, text) {
        Ok(zone) => Ok(Some(zone)),
        Err(NameFault::OutOfMemory) => Err(AllocError),
        Err(_) => Ok(None),
    }
}

/// The text of an expression with what it spells.
pub fn expression_word(alloc: Global, text: &str) -> Result<Option<(Text, Expr)>, AllocError>
    ensures value { IfOk result (λ found. found ≡ word.expression_word text.now) }
    ensures spells { IfOk result (λ found. IfSome found (λ it. Spells it.0 it.1)) }
{
    if !has_characters(text, 1, LONGEST_EXPRESSION) {
        return Ok(None);
    }
    match read_expr(text.as_bytes()) {
        Ok(expression) => Ok(Some((owned(alloc, text)?, expression))),
        Err(_) => Ok(None),
    }
}

/// The arn of a target that a text is.
pub fn target_word(alloc: Global, text: &str) -> Result<Option<Text>, AllocError>
    ensures { IfOk result (λ found. found ≡ word.target_word text.now) }
{
    match text_word(alloc, text, 1, LONGEST_ARN)? {
        Some(arn) => target_arn(alloc, arn),
        None => Ok(None),
    }
}

/// The arn, where it is the address of a target.
fn target_arn(alloc: Global, arn: Text) -> Result<Option<Text>, AllocError>
    ensures { IfOk result (λ found. found ≡ word.kept (λ text. word.is_target text) (Some arn)) }
{
    match address_of(alloc, &arn) {
        Ok(_) => Ok(Some(arn)),
        Err(SpotFault::NotATarget) => Ok(None),
        Err(SpotFault::OutOfMemory) => Err(AllocError),
    }
}

/// The place of the first such mark.
fn place_of(mark: u8, text: &[u8]) -> Option<usize>
    ensures value { result ≡ position (λ byte. byte == mark) text.now }
    ensures within { IfSome result (λ at. at < length text.now) }
{
    text.iter().position(|byte| *byte == mark)
}

/// What stands before the first such mark and what behind it, where there is one.
pub fn around(mark: u8, text: &[u8]) -> Option<(&[u8], &[u8])>
    ensures { option_map (λ parts. (parts.0.now, parts.1.now)) result ≡ word.around mark text.entry.now }
{
    match place_of(mark, text) {
        Some(at) => {
            let (before, _) = text.split_at(at);
            let (_, after) = text.split_at(at + 1);
            Some((before, after))
        }
        None => None,
    }
}

/// What stands behind a front.
pub fn behind<'a>(front: &[u8], text: &'a [u8]) -> Option<&'a [u8]>
    ensures { option_copied result ≡ word.behind front.now text.entry.now }
{
    if !text.starts_with(front) {
        return None;
    }
    let (_, rest) = text.split_at(front.len());
    Some(rest)
}

fn is_token_byte(byte: u8) -> bool
    ensures { result ≡ is_token_byte byte }
{
    byte.is_ascii_alphanumeric() || byte == b'-' || byte == b'_'
}

fn are_token_bytes(text: &[u8]) -> bool
    ensures { result ≡ list_all is_token_byte text.now }
{
    text.iter().all(|byte| is_token_byte(*byte))
}

fn is_part(text: &[u8]) -> bool
    ensures { result ≡ word.is_part text.now }
{
    1 <= text.len() && are_token_bytes(text)
}

fn are_account_and_queue(text: &[u8]) -> bool
    ensures { result ≡ word.are_account_and_queue text.now }
{
    match around(b':', text) {
        Some((account, queue)) => is_part(account) && is_part(queue),
        None => false,
    }
}

fn are_queue_parts(text: &[u8]) -> bool
    ensures { result ≡ word.are_queue_parts text.now }
{
    match around(b':', text) {
        Some((region, more)) => is_part(region) && are_account_and_queue(more),
        None => false,
    }
}

/// Whether a text is the arn of a queue.
fn is_queue_arn(text: &[u8]) -> bool
    ensures { result ≡ word.is_queue_arn text.now }
{
    match behind(b"arn:aws:sqs:", text) {
        Some(parts) => are_queue_parts(parts),
        None => false,
    }
}

/// The arn of a queue that a text is.
pub fn queue_word(alloc: Global, text: &str) -> Result<Option<Text>, AllocError>
    ensures { IfOk result (λ found. found ≡ word.queue_word text.now) }
{
    match text_word(alloc, text, 1, LONGEST_ARN)? {
        Some(arn) => Ok(queue_arn(arn)),
        None => Ok(None),
    }
}

/// The arn, where it is that of a queue.
fn queue_arn(arn: Text) -> Option<Text>
    ensures { result ≡ word.kept word.is_queue_arn (Some arn) }
{
    if is_queue_arn(arn.as_bytes()) {
        Some(arn)
    } else {
        None
    }
}

/// The input of a target that a text is.
pub fn input_word(alloc: Global, text: &str) -> Result<Option<Text>, AllocError>
    ensures { IfOk result (λ found. found ≡ word.input_word text.now) }
{
    if text.is_empty() || text.len() > LONGEST_INPUT {
        return Ok(None);
    }
    Ok(Some(owned(alloc, text)?))
}

/// Whether a text is the first of two words. None where it is neither.
pub fn one_of(text: &str, first: &str, second: &str) -> Option<bool>
    ensures { result ≡ word.one_of first.now second.now text.now }
{
    if text == first {
        Some(true)
    } else if text == second {
        Some(false)
    } else {
        None
    }
}
