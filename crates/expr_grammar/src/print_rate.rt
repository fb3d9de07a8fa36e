//! Prints a rate.
ghost use Rattle.std.specs.Prelude.{◌≡◌, ◌++◌, OnOk};
ghost use Rattle.expressions.specs.Canonical.{rate_text, unit_text};

use crate::print_number::put_number;
use expressions::Unit;
use std::alloc::{AllocError, Global};

/// Appends a rate.
pub(crate) fn put_rate(
    text: &mut Vec<u8>,
    alloc: Global,
    count: u32,
    unit: Unit,
) -> Result<(), AllocError>
    ensures { OnOk result (text.new.items ≡ text.old.items ++ rate_text count unit) }
{
    text.extend_from_slice(b"rate(")?;
    put_number(text, alloc, count)?;
    text.push(b' ')?;
    text.extend_from_slice(unit_name(count, unit))?;
    text.push(b')')?;
    Ok(())
}

/// The name of a unit, in the singular for a count of 1.
fn unit_name(count: u32, unit: Unit) -> &'static [u8]
    ensures { result.now ≡ unit_text count unit }
{
    match unit {
        Unit::Minute if count == 1 => b"minute",
        Unit::Minute => b"minutes",
        Unit::Hour if count == 1 => b"hour",
        Unit::Hour => b"hours",
        Unit::Day if count == 1 => b"day",
        Unit::Day => b"days",
    }
}
