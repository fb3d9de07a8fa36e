//! What a look at a journal file found.
ghost use Rattle.std.specs.Prelude.{◌≡◌, ◌++◌, IfOk, OnOk};
ghost use Rattle.report_lines.specs.Findings.{finding_text, steps_line};

use crate::line::push_numbered_line;
use std::alloc::{AllocError, Global};

/// What a look at a journal file found. Places are offsets in bytes from the file's first byte.
#[derive(Debug, Clone, Copy, PartialEq, Eq)]
pub enum Finding {
    /// The file stands for a legal history of so many steps.
    Legal { steps: u64 },
    /// The file has no header of a journal: the first byte of it that differs, or is missing.
    NotAJournal { at: u64 },
    /// The gate of the first record that is cut off, cannot be read, or may not follow those before it.
    Damaged { at: u64 },
}

fn push_steps(text: &mut Vec<u8>, alloc: Global, steps: u64) -> Result<(), AllocError>
    ensures { OnOk result (text.new.items ≡ text.old.items ++ steps_line steps) }
{
    text.extend_from_slice(b"legal ")?;
    text.extend_from_slice(steps.to_string(alloc)?.as_bytes())?;
    text.extend_from_slice(b" steps\n")?;
    Ok(())
}

fn push_finding(text: &mut Vec<u8>, alloc: Global, finding: Finding) -> Result<(), AllocError>
    ensures { OnOk result (text.new.items ≡ text.old.items ++ finding_text finding) }
{
    match finding {
        Finding::Legal { steps } => push_steps(text, alloc, steps),
        Finding::NotAJournal { at } => push_numbered_line(text, alloc, "not a journal at", at),
        Finding::Damaged { at } => push_numbered_line(text, alloc, "damaged at", at),
    }
}

/// The one line that tells what was found. Fails for want of memory alone.
pub fn check_line(alloc: Global, finding: Finding) -> Result<Vec<u8>, AllocError>
    ensures { IfOk result (λ text. text.items ≡ finding_text finding) }
{
    let mut text = Vec::new(alloc);
    push_finding(&mut text, alloc, finding)?;
    Ok(text)
}
