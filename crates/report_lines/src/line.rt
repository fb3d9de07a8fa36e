//! One line of the program's output.
ghost use Rattle.std.specs.Prelude.{◌≡◌, ◌++◌, OnOk};
ghost use Rattle.report_lines.specs.Lines.{numbered_line};

use std::alloc::{AllocError, Global};

/// Adds the line that has these words, a space and this number.
pub fn push_numbered_line(
    text: &mut Vec<u8>,
    alloc: Global,
    words: &str,
    number: u64,
) -> Result<(), AllocError>
    ensures { OnOk result (text.new.items ≡ text.old.items ++ numbered_line words.now number) }
{
    text.extend_from_slice(words.as_bytes())?;
    text.extend_from_slice(b" ")?;
    text.extend_from_slice(number.to_string(alloc)?.as_bytes())?;
    text.extend_from_slice(b"\n")?;
    Ok(())
}
