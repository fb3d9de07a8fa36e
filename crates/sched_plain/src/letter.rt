use crate::outcome::Outcome;
use plain_words::{Items, TryCopy};
use std::alloc::AllocError;

/// A dead letter: an occurrence that failed, and how. The reason is Final, Attempts or Age.
#[derive(Debug, Clone, Copy, PartialEq, Eq)]
pub struct Letter {
    pub inc: u32,
    pub instant: u64,
    pub reason: Outcome,
}

/// The letters of a queue, in the order in which they came.
pub type Letters = Items<Letter>;

impl TryCopy for Letter {
    fn copy(&self) -> Result<Letter, AllocError> {
        Ok(*self)
    }
}
