//! One entry, in 36 bytes.
ghost use Rattle.std.specs.Prelude.{◌≡◌, ◌≤◌, ◌<◌, ◌+◌, min};
ghost use Rattle.entry_lines.specs.Packing.{kind_of, mark_of, at_of, last_of, outcome_in};
ghost use Rattle.entry_lines.specs.Written.{new_line, moved};

use crate::halves::Halves;
use sched_plain::{Entry, Last, Outcome, Pair};
use std::marker::Model;

/// What became of the last attempt.
#[derive(Debug, Clone, Copy, PartialEq, Eq)]
pub enum LastKind {
    NoAttempt,
    Live,
    Lost,
    Ended,
}

/// Whether the entry is decided, and how.
#[derive(Debug, Clone, Copy, PartialEq, Eq)]
pub enum Mark {
    Open,
    Done,
    Final,
    Attempts,
    Age,
    Cancelled,
}

/// An entry, its instant, and where its policy and its attempts are found.
#[derive(Drop)]
pub struct Line {
    instant: Halves,
    chosen: Halves,
    /// Of the last attempt.
    moment: Halves,
    /// Where its attempts begin.
    start: u32,
    /// The place of its policy.
    policy: u32,
    used: u16,
    last: LastKind,
    mark: Mark,
}

impl Model for Line {
    ghost use Rattle.entry_lines.specs.Written.{Written};
    ghost use Rattle.entry_lines.specs.Packing.{last_of, outcome_in};

    ghost Value = { Written };

    ghost view = { λ l. record { instant = l.instant; entry = record { chosen = l.chosen; used = l.used; last = last_of l.last l.moment; outcome = outcome_in l.mark }; start = l.start; policy = l.policy } };
}

impl Line {
    /// The entry of a pair, with no attempt yet.
    pub fn new(pair: Pair, start: u32, policy: u32) -> Line
        ensures { result ≡ new_line pair start policy }
    {
        Line {
            instant: Halves::new(pair.instant),
            chosen: Halves::new(pair.chosen),
            moment: Halves::new(0),
            start,
            policy,
            used: 0,
            last: LastKind::NoAttempt,
            mark: Mark::Open,
        }
    }

    pub fn instant(&self) -> u64
        ensures { result ≡ self.now.instant }
    {
        self.instant.get()
    }

    pub fn start(&self) -> usize
        ensures value { result ≡ self.now.start }
        ensures small { result < 4294967296 }
    {
        self.start as usize
    }

    pub fn policy(&self) -> usize
        ensures { result ≡ self.now.policy }
    {
        self.policy as usize
    }

    pub fn entry(&self) -> Entry
        ensures { result ≡ self.now.entry }
    {
        Entry {
            chosen: self.chosen.get(),
            used: self.used,
            last: last_of(self.last, self.moment.get()),
            outcome: outcome_in(self.mark),
        }
    }

    /// Writes the entry.
    pub fn write(&mut self, entry: Entry)
        ensures { self.new ≡ record self.old { entry = entry } }
    {
        self.chosen = Halves::new(entry.chosen);
        self.used = entry.used;
        self.moment = Halves::new(at_of(entry.last));
        self.last = kind_of(entry.last);
        self.mark = mark_of(entry.outcome);
    }

    /// Its attempts begin one place later, where that is a place.
    pub fn move_on(&mut self)
        ensures { self.new ≡ moved self.old }
    {
        self.start = self.start.saturating_add(1);
    }
}

fn last_of(kind: LastKind, at: u64) -> Last
    ensures { result ≡ last_of kind at }
{
    match kind {
        LastKind::NoAttempt => Last::NoAttempt,
        LastKind::Live => Last::Live { at },
        LastKind::Lost => Last::Lost { at },
        LastKind::Ended => Last::Ended { at },
    }
}

fn outcome_in(mark: Mark) -> Option<Outcome>
    ensures { result ≡ outcome_in mark }
{
    match mark {
        Mark::Open => None,
        Mark::Done => Some(Outcome::Done),
        Mark::Final => Some(Outcome::Final),
        Mark::Attempts => Some(Outcome::Attempts),
        Mark::Age => Some(Outcome::Age),
        Mark::Cancelled => Some(Outcome::Cancelled),
    }
}

fn kind_of(last: Last) -> LastKind
    ensures { result ≡ kind_of last }
{
    match last {
        Last::NoAttempt => LastKind::NoAttempt,
        Last::Live { .. } => LastKind::Live,
        Last::Lost { .. } => LastKind::Lost,
        Last::Ended { .. } => LastKind::Ended,
    }
}

fn at_of(last: Last) -> u64
    ensures { result ≡ at_of last }
{
    match last {
        Last::NoAttempt => 0,
        Last::Live { at } | Last::Lost { at } | Last::Ended { at } => at,
    }
}

fn mark_of(outcome: Option<Outcome>) -> Mark
    ensures { result ≡ mark_of outcome }
{
    match outcome {
        None => Mark::Open,
        Some(Outcome::Done) => Mark::Done,
        Some(Outcome::Final) => Mark::Final,
        Some(Outcome::Attempts) => Mark::Attempts,
        Some(Outcome::Age) => Mark::Age,
        Some(Outcome::Cancelled) => Mark::Cancelled,
    }
}
