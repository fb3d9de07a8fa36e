use crate::outcome::Outcome;
use crate::schedule::Policy;
use plain_words::{Items, Moment, TryCopy, Verdict};
use std::alloc::AllocError;

/// What became of an entry's last attempt, with the moment of its Begin where it is live, and
/// otherwise the moment at which it was lost or ended.
#[derive(Debug, Clone, Copy, PartialEq, Eq)]
pub enum Last {
    NoAttempt,
    Live { at: u64 },
    Lost { at: u64 },
    Ended { at: u64 },
}

/// The ledger's entry of one occurrence.
#[derive(Debug, Clone, Copy, PartialEq, Eq)]
pub struct Entry {
    /// The moment from which on it may be sent.
    pub chosen: u64,
    /// How many attempts were begun.
    pub used: u16,
    pub last: Last,
    pub outcome: Option<Outcome>,
}

/// An entry with the retry policy under which it was entered.
#[derive(Debug, Clone, Copy, PartialEq, Eq)]
pub struct Filed {
    pub entry: Entry,
    pub policy: Policy,
}

/// What became of an attempt.
#[derive(Debug, Clone, Copy, PartialEq, Eq)]
pub enum Fate {
    Live,
    Lost,
    /// The status is 0 where no reply could be read.
    Ended { verdict: Verdict, status: u16 },
}

/// One attempt of an occurrence; its number counts from 1.
#[derive(Debug, Clone, Copy, PartialEq, Eq)]
pub struct Attempt {
    pub number: u16,
    pub begun: Moment,
    pub epoch: u64,
    pub fate: Fate,
}

/// The attempts of an occurrence, in the order of their numbers.
pub type Attempts = Items<Attempt>;

impl TryCopy for Attempt {
    fn copy(&self) -> Result<Attempt, AllocError> {
        Ok(*self)
    }
}
