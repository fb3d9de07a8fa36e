//! The file of a journal: a header, then records, each behind a gate that is opened only once the record is on the disk.
//!
//! Promised is what a crash at any moment leaves: the records from before a call, or these and the new one; after `Ok` the
//! new one too. A journal that was read holds the payloads of its file in order, and a file that is none is refused at its
//! exact place. Where one call of the disk fails in an append, the record is in doubt until it is settled. What a payload
//! means is not known here, and that a real file is such a disk is not proved.
#![tactic(auto)]

mod ahead;
mod beginning;
mod fault;
mod format;
mod head;
mod journal;
mod opening;
mod rest;

pub use beginning::init;
pub use fault::{AppendFault, DiskFault, InitFault, NextFault, OpenFault};
pub use format::LONGEST_PAYLOAD;
pub use journal::Journal;
pub use opening::Opening;
