//! Prints numbers.
ghost use Rattle.std.specs.Prelude.{◌≡◌, ◌++◌, decimal, OnOk};
ghost use Rattle.expressions.specs.CivilSeconds.{two_digits};

use std::alloc::{AllocError, Global};

/// Appends a number in decimal, with no leading zero.
pub(crate) fn put_number(text: &mut Vec<u8>, alloc: Global, number: u32) -> Result<(), AllocError>
    ensures { OnOk result (text.new.items ≡ text.old.items ++ decimal number) }
{
    let digits = number.to_string(alloc)?;
    text.extend_from_slice(digits.as_bytes())?;
    Ok(())
}

/// Appends the last two digits of a number.
pub(crate) fn put_two_digits(text: &mut Vec<u8>, number: u16) -> Result<(), AllocError>
    ensures { OnOk result (text.new.items ≡ text.old.items ++ two_digits number) }
{
    text.push(b'0' + (number / 10 % 10) as u8)?;
    text.push(b'0' + (number % 10) as u8)?;
    Ok(())
}
