//! Prints an `at`.
ghost use Rattle.std.specs.Prelude.{◌≡◌, ◌/◌, ◌++◌, codes, OnOk};
ghost use Rattle.expressions.specs.CivilSeconds.{at_text, two_digits};

use crate::print_number::put_two_digits;
use expressions::Civil;
use std::alloc::AllocError;

/// Appends an `at`.
pub(crate) fn put_at(text: &mut Vec<u8>, civil: &Civil) -> Result<(), AllocError>
    ensures { OnOk result (text.new.items ≡ text.old.items ++ at_text civil.now) }
{
    text.extend_from_slice(b"at(")?;
    put_date(text, civil)?;
    text.push(b'T')?;
    put_time(text, civil)?;
    text.push(b')')?;
    Ok(())
}

fn put_date(text: &mut Vec<u8>, civil: &Civil) -> Result<(), AllocError>
    ensures { OnOk result (text.new.items ≡ text.old.items ++ (two_digits (civil.now.year / 100) ++ two_digits civil.now.year
        ++ codes "-" ++ two_digits civil.now.month ++ codes "-" ++ two_digits civil.now.day)) }
{
    put_two_digits(text, civil.year / 100)?;
    put_two_digits(text, civil.year)?;
    text.push(b'-')?;
    put_two_digits(text, civil.month as u16)?;
    text.push(b'-')?;
    put_two_digits(text, civil.day as u16)?;
    Ok(())
}

fn put_time(text: &mut Vec<u8>, civil: &Civil) -> Result<(), AllocError>
    ensures { OnOk result (text.new.items ≡ text.old.items ++ (two_digits civil.now.hour
        ++ codes ":" ++ two_digits civil.now.minute ++ codes ":" ++ two_digits civil.now.second)) }
{
    put_two_digits(text, civil.hour as u16)?;
    text.push(b':')?;
    put_two_digits(text, civil.minute as u16)?;
    text.push(b':')?;
    put_two_digits(text, civil.second as u16)?;
    Ok(())
}
