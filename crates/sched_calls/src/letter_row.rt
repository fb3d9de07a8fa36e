use sched_plain::{Items, Name, Outcome, TryCopy};
use std::alloc::AllocError;

/// A dead letter as a list of letters shows it; its number counts from 1 in its queue.
#[derive(Debug, Drop)]
pub struct LetterRow {
    pub number: u64,
    pub inc: u32,
    pub instant: u64,
    pub reason: Outcome,
    pub group: Name,
    pub name: Name,
}

/// Letters as a queue's list shows them, in order.
pub type LetterRows = Items<LetterRow>;

impl TryCopy for LetterRow {
    fn copy(&self) -> Result<LetterRow, AllocError> {
        Ok(LetterRow {
            number: self.number,
            inc: self.inc,
            instant: self.instant,
            reason: self.reason,
            group: self.group.copy()?,
            name: self.name.copy()?,
        })
    }
}
