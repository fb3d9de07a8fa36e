//! The report of the counts of a history.
ghost use Rattle.std.specs.Prelude.{◌≡◌, IfOk};
ghost use Rattle.report_lines.specs.Lines.{report_text};

use crate::line::push_numbered_line;
use sched_plain::Counts;
use std::alloc::{AllocError, Global};

/// The lines of a report: a word, a space and a number for each count, in the order of the fields. Fails for want of
/// memory alone.
pub fn report(alloc: Global, counts: &Counts) -> Result<Vec<u8>, AllocError>
    ensures { IfOk result (λ text. text.items ≡ report_text counts.now) }
{
    let mut text = Vec::new(alloc);
    push_numbered_line(&mut text, alloc, "moment", counts.moment)?;
    push_numbered_line(&mut text, alloc, "steps", counts.steps)?;
    push_numbered_line(&mut text, alloc, "schedules", counts.schedules)?;
    push_numbered_line(&mut text, alloc, "groups", counts.groups)?;
    push_numbered_line(&mut text, alloc, "entries", counts.entries)?;
    push_numbered_line(&mut text, alloc, "done", counts.done)?;
    push_numbered_line(&mut text, alloc, "final", counts.finals)?;
    push_numbered_line(&mut text, alloc, "attempts", counts.attempts)?;
    push_numbered_line(&mut text, alloc, "age", counts.age)?;
    push_numbered_line(&mut text, alloc, "cancelled", counts.cancelled)?;
    push_numbered_line(&mut text, alloc, "waiting", counts.waiting)?;
    push_numbered_line(&mut text, alloc, "due", counts.due)?;
    push_numbered_line(&mut text, alloc, "live", counts.live)?;
    push_numbered_line(&mut text, alloc, "exhausted", counts.exhausted)?;
    push_numbered_line(&mut text, alloc, "letters", counts.letters)?;
    Ok(text)
}
