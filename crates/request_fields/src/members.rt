//! The members of a JSON object that are given, each with what its rule says of it. A null is a member that is left out.
ghost use Rattle.std.specs.Prelude.{◌≡◌, ◌≤◌, IfOk, IfSome, option_map};
ghost use Rattle.serde_json.specs.View.{view};
ghost use Rattle.expressions.specs.Spelling.{Spells};
ghost use Rattle.request_fields.specs.Rows as row;
ghost use Rattle.request_fields.specs.Words as word;

use crate::words::{
    expression_word, input_word, name_word, one_of, queue_word, target_word, text_word, token_word,
    zone_word,
};
use sched_plain::{Expr, Name, Text, Token, ZoneName};
use serde_json::Value;
use std::alloc::{AllocError, Global};

fn unless_null(value: &Value) -> Option<&Value>
    ensures { option_map (λ it. view it.now) result ≡ row.unless_null (view value.entry.now) }
{
    match value {
        Value::Null => None,
        Value::Bool(_) => Some(value),
        Value::Number(_) => Some(value),
        Value::String(_) => Some(value),
        Value::Array(_) => Some(value),
        Value::Object(_) => Some(value),
    }
}

/// The value of a member that is given.
pub(crate) fn given<'a>(object: &'a Value, name: &str) -> Option<&'a Value>
    ensures { option_map (λ it. view it.now) result ≡ row.given name.now (view object.entry.now) }
{
    match object.get(name) {
        Some(value) => unless_null(value),
        None => None,
    }
}

/// A text of so many characters.
pub(crate) fn text_at(
    alloc: Global,
    object: &Value,
    name: &str,
    least: usize,
    most: usize,
) -> Result<Option<Option<Text>>, AllocError>
    ensures { IfOk result (λ found.
        found ≡ row.member_by (row.in_text (word.text_word least most)) name.now (view object.now)) }
{
    match given(object, name) {
        None => Ok(None),
        Some(value) => match value.as_str() {
            Some(text) => Ok(Some(text_word(alloc, text, least, most)?)),
            None => Ok(Some(None)),
        },
    }
}

/// The name of a schedule or a group.
pub fn name_at(
    alloc: Global,
    object: &Value,
    name: &str,
) -> Result<Option<Option<Name>>, AllocError>
    ensures { IfOk result (λ found. found ≡ row.member_by (row.in_text word.name_word) name.now (view object.now)) }
{
    match given(object, name) {
        None => Ok(None),
        Some(value) => match value.as_str() {
            Some(text) => Ok(Some(name_word(alloc, text.as_bytes())?)),
            None => Ok(Some(None)),
        },
    }
}

/// A client token.
pub fn token_at(
    alloc: Global,
    object: &Value,
    name: &str,
) -> Result<Option<Option<Token>>, AllocError>
    ensures { IfOk result (λ found. found ≡ row.member_by (row.in_text word.token_word) name.now (view object.now)) }
{
    match given(object, name) {
        None => Ok(None),
        Some(value) => match value.as_str() {
            Some(text) => Ok(Some(token_word(alloc, text.as_bytes())?)),
            None => Ok(Some(None)),
        },
    }
}

/// The name of a time zone.
pub(crate) fn zone_at(
    alloc: Global,
    object: &Value,
    name: &str,
) -> Result<Option<Option<ZoneName>>, AllocError>
    ensures { IfOk result (λ found. found ≡ row.member_by (row.in_text word.zone_word) name.now (view object.now)) }
{
    match given(object, name) {
        None => Ok(None),
        Some(value) => match value.as_str() {
            Some(text) => Ok(Some(zone_word(alloc, text.as_bytes())?)),
            None => Ok(Some(None)),
        },
    }
}

/// An expression.
pub(crate) fn expression_at(
    alloc: Global,
    object: &Value,
    name: &str,
) -> Result<Option<Option<(Text, Expr)>>, AllocError>
    ensures value { IfOk result (λ found.
        found ≡ row.member_by (row.in_text word.expression_word) name.now (view object.now)) }
    ensures spells { IfOk result (λ found. IfSome found (λ it. IfSome it (λ expression.
        Spells expression.0 expression.1))) }
{
    match given(object, name) {
        None => Ok(None),
        Some(value) => match value.as_str() {
            Some(text) => Ok(Some(expression_word(alloc, text)?)),
            None => Ok(Some(None)),
        },
    }
}

/// The arn of a target.
pub(crate) fn target_at(
    alloc: Global,
    object: &Value,
    name: &str,
) -> Result<Option<Option<Text>>, AllocError>
    ensures { IfOk result (λ found. found ≡ row.member_by (row.in_text word.target_word) name.now (view object.now)) }
{
    match given(object, name) {
        None => Ok(None),
        Some(value) => match value.as_str() {
            Some(text) => Ok(Some(target_word(alloc, text)?)),
            None => Ok(Some(None)),
        },
    }
}

/// The arn of a queue.
pub(crate) fn queue_at(
    alloc: Global,
    object: &Value,
    name: &str,
) -> Result<Option<Option<Text>>, AllocError>
    ensures { IfOk result (λ found. found ≡ row.member_by (row.in_text word.queue_word) name.now (view object.now)) }
{
    match given(object, name) {
        None => Ok(None),
        Some(value) => match value.as_str() {
            Some(text) => Ok(Some(queue_word(alloc, text)?)),
            None => Ok(Some(None)),
        },
    }
}

/// The input of a target.
pub(crate) fn input_at(
    alloc: Global,
    object: &Value,
    name: &str,
) -> Result<Option<Option<Text>>, AllocError>
    ensures { IfOk result (λ found. found ≡ row.member_by (row.in_text word.input_word) name.now (view object.now)) }
{
    match given(object, name) {
        None => Ok(None),
        Some(value) => match value.as_str() {
            Some(text) => Ok(Some(input_word(alloc, text)?)),
            None => Ok(Some(None)),
        },
    }
}

/// Whether it is the first of two words.
pub(crate) fn word_at(object: &Value, name: &str, first: &str, second: &str) -> Option<Option<bool>>
    ensures { result ≡ row.member_by (row.in_text (word.one_of first.now second.now)) name.now (view object.now) }
{
    match given(object, name) {
        None => None,
        Some(value) => match value.as_str() {
            Some(text) => Some(one_of(text, first, second)),
            None => Some(None),
        },
    }
}
