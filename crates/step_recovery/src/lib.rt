//! A book, opened from the file of a journal: each record is read as a step, judged, and taken, in one pass.
//!
//! [`open`] answers what the file determines. Where it is the journal of a legal history, the book stands for that history and
//! the journal goes on behind its last record; where it is damaged, the gate of the first damage is told, and where it is no
//! journal, the first byte that differs. Besides, only a failed call of the disk and want of memory are told. The file is read
//! and brought to rest, and not written. Which history a file stands for is defined in `journal_steps`; appending to the journal
//! and giving up what was in the air are left to the crates above.
#![tactic(auto)]

mod fault;
mod loaded;
mod opening;
mod reading;
mod taking;

pub use fault::LoadFault;
pub use loaded::Loaded;
pub use opening::open;
