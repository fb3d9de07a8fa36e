//! The members of a JSON object that are objects.
ghost use Rattle.std.specs.Prelude.{◌≡◌, ◌++◌, option_map};
ghost use Rattle.serde_json.specs.Data.{null};
ghost use Rattle.serde_json.specs.View.{view};
ghost use Rattle.request_fields.specs.Objects.{ReadsObject};
ghost use Rattle.request_fields.specs.Rows as row;

use crate::fault::DecodeFault;
use crate::members::given;
use crate::rows::broken;
use serde_json::Value;
use std::alloc::Global;

/// An object.
fn an_object(value: &Value) -> Option<&Value>
    ensures { option_map (λ it. view it.now) result ≡ row.an_object (view value.entry.now) }
{
    match value.as_object() {
        Some(_) => Some(value),
        None => None,
    }
}

/// An object that may not be left out.
pub(crate) fn object_needed<'a>(
    alloc: Global,
    object: &'a Value,
    prefix: &str,
    name: &str,
) -> Result<&'a Value, DecodeFault>
    ensures { ReadsObject result (row.required prefix.now name.now row.an_object (view object.entry.now)) }
{
    match given(object, name) {
        Some(value) => match an_object(value) {
            Some(value) => Ok(value),
            None => Err(broken(alloc, prefix, name)?),
        },
        None => Err(broken(alloc, prefix, name)?),
    }
}

/// An object, or what stands for one that is left out.
pub(crate) fn object_or<'a>(
    alloc: Global,
    object: &'a Value,
    prefix: &str,
    name: &str,
    default: &'a Value,
) -> Result<&'a Value, DecodeFault>
    ensures { ReadsObject result
        (row.defaulted prefix.now name.now row.an_object (view default.entry.now) (view object.entry.now)) }
{
    match given(object, name) {
        Some(value) => match an_object(value) {
            Some(value) => Ok(value),
            None => Err(broken(alloc, prefix, name)?),
        },
        None => Ok(default),
    }
}

/// What stands for an object that is left out: each member of it is left out.
pub(crate) fn left_out() -> Value
    ensures { view result ≡ null }
{
    Value::Null
}
