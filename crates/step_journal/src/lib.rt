//! The journal of a history: a file whose records are its steps.
//!
//! `StepJournal` appends a step to it: after `Ok` each file that a crash leaves is the journal with the step upon it, and at no
//! moment did a crash leave another than the one before or that one. Where a call of the disk failed the step is in doubt until
//! it is settled. An attempt in the air has room for its End in the file, so that an End is never refused for want of it. Whether
//! a step may follow is not asked here.
#![tactic(auto)]

mod laws;
mod needs;
mod step_journal;

pub use laws::ends_are_short;
pub use needs::aloft_after;
pub use step_journal::StepJournal;
