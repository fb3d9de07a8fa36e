//! The body of a request.
ghost use Rattle.std.specs.Prelude.{◌≡◌, IfOk, option_map};
ghost use Rattle.serde_json.specs.Data.{object, no_members};
ghost use Rattle.serde_json.specs.View.{view};
ghost use Rattle.request_fields.specs.Bodies.{object_in, object_of, value_of};
ghost use Rattle.request_fields.specs.Objects.{ReadsOwned};
ghost use Rattle.request_fields.specs.Rows.{an_object};

use crate::fault::{BAD_REQUEST, DecodeFault, refused};
use serde_json::{Map, Value};
use std::alloc::{AllocError, Global};

/// The number of the rule that a body is a JSON object.
const BODY_RULE: u8 = 5;

/// Reads the object that a body is; an empty body is an object without a member.
pub fn read_object(alloc: Global, body: &[u8]) -> Result<Value, DecodeFault>
    ensures { ReadsOwned result (object_of body.now) }
{
    match object_in(alloc, body)? {
        Some(object) => Ok(object),
        None => Err(DecodeFault::Refused(refused(alloc, BODY_RULE, BAD_REQUEST, "", "body")?)),
    }
}

fn object_in(alloc: Global, body: &[u8]) -> Result<Option<Value>, AllocError>
    ensures { IfOk result (λ found. option_map (λ it. view it) found ≡ object_in body.now) }
{
    if body.is_empty() {
        return Ok(Some(empty_object(alloc)));
    }
    match value_in(alloc, body)? {
        Some(value) => Ok(an_object(value)),
        None => Ok(None),
    }
}

fn empty_object(alloc: Global) -> Value
    ensures { view result ≡ object no_members }
{
    Value::Object(Map::new(alloc))
}

/// The value, where it is an object.
fn an_object(value: Value) -> Option<Value>
    ensures { option_map (λ it. view it) result ≡ an_object (view value) }
{
    match value {
        Value::Object(members) => Some(Value::Object(members)),
        _ => None,
    }
}

/// The JSON value of a body.
fn value_in(alloc: Global, body: &[u8]) -> Result<Option<Value>, AllocError>
    ensures { IfOk result (λ found. option_map (λ it. view it) found ≡ value_of body.now) }
{
    match Value::from_slice(alloc, body) {
        Ok(value) => Ok(Some(value)),
        Err(error) if error.is_memory() => Err(AllocError),
        Err(_) => Ok(None),
    }
}
