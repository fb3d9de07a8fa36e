//! The rows of a table: what becomes of a field, given what its rule says of it.
ghost use Rattle.std.specs.Prelude.{◌≡◌, ◌++◌, IfOk};
ghost use Rattle.request_fields.specs.declared.fault.DecodeFault.TheVariants.{Refused};
ghost use Rattle.request_fields.specs.Refusals.{Reads, or_refused, field_refusal};
ghost use Rattle.request_fields.specs.Rows.{needed, or_default as default_for, or_none as none_for};

use crate::fault::{BAD_REQUEST, DecodeFault, refused};
use std::alloc::{AllocError, Global};

/// The number of the rule that each field keeps its own rule.
const FIELD_RULE: u8 = 7;

/// That a field, called by its path, breaks its rule. An `Err` is want of memory.
pub fn broken(alloc: Global, prefix: &str, name: &str) -> Result<DecodeFault, AllocError>
    ensures { IfOk result (λ fault. fault ≡ Refused (field_refusal (prefix.now ++ name.now))) }
{
    let refusal = refused(alloc, FIELD_RULE, BAD_REQUEST, prefix, name)?;
    Ok(DecodeFault::Refused(refusal))
}

/// The value of a field that may not be left out.
pub fn required<T: Drop>(
    alloc: Global,
    prefix: &str,
    name: &str,
    found: Option<Option<T>>,
) -> Result<T, DecodeFault>
    ensures { Reads result (or_refused (prefix.now ++ name.now) (needed found)) }
{
    match found {
        Some(Some(value)) => Ok(value),
        Some(None) => Err(broken(alloc, prefix, name)?),
        None => Err(broken(alloc, prefix, name)?),
    }
}

/// The value of a field that has a default.
pub fn or_default<T: Drop>(
    alloc: Global,
    prefix: &str,
    name: &str,
    found: Option<Option<T>>,
    default: T,
) -> Result<T, DecodeFault>
    ensures { Reads result (or_refused (prefix.now ++ name.now) (default_for default found)) }
{
    match found {
        None => Ok(default),
        Some(Some(value)) => Ok(value),
        Some(None) => Err(broken(alloc, prefix, name)?),
    }
}

/// The value of a field that may be left out.
pub fn or_none<T: Drop>(
    alloc: Global,
    prefix: &str,
    name: &str,
    found: Option<Option<T>>,
) -> Result<Option<T>, DecodeFault>
    ensures { Reads result (or_refused (prefix.now ++ name.now) (none_for found)) }
{
    match found {
        None => Ok(None),
        Some(Some(value)) => Ok(Some(value)),
        Some(None) => Err(broken(alloc, prefix, name)?),
    }
}
