//! What becomes of one entry, and one attempt in the air.
ghost use Rattle.std.specs.Prelude.{◌≡◌, ◌<◌, map, length, slice_set};
ghost use Rattle.sched_plain.specs.Attempts.{end_attempt, lose_attempt};
ghost use Rattle.sched_plain.specs.Entries.{with_end, with_loss, decided_as, outcome_of};
ghost use Rattle.entry_lines.specs.Rows.{changed, row_there};
ghost use Rattle.ledger_rows.specs.Rows.{cancelled_row};

use crate::counted_lines::CountedLines;
use sched_plain::{Entry, Last, Moment, Outcome, Reason, Verdict};

/// An attempt in the air: begun, and neither ended nor lost.
#[derive(Debug, Clone, Copy, PartialEq, Eq)]
pub struct Flight {
    pub inc: u32,
    pub instant: u64,
    pub number: u16,
}

fn decided_as(entry: Entry, outcome: Outcome) -> Entry
    ensures { result ≡ decided_as outcome entry }
{
    if entry.outcome.is_some() {
        return entry;
    }
    Entry {
        outcome: Some(outcome),
        ..entry
    }
}

fn with_end(entry: Entry, verdict: Verdict, at: u64) -> Entry
    ensures { result ≡ with_end verdict at entry }
{
    let ended = Entry {
        last: Last::Ended { at },
        ..entry
    };
    match verdict {
        Verdict::Done => decided_as(ended, Outcome::Done),
        Verdict::Retry => ended,
        Verdict::Final => decided_as(ended, Outcome::Final),
    }
}

fn with_loss(entry: Entry, at: u64) -> Entry
    ensures { result ≡ with_loss at entry }
{
    match entry.last {
        Last::Live { .. } => Entry {
            last: Last::Lost { at },
            ..entry
        },
        _ => entry,
    }
}

fn outcome_of(reason: Reason) -> Outcome
    ensures { result ≡ outcome_of reason }
{
    match reason {
        Reason::Attempts => Outcome::Attempts,
        Reason::Age => Outcome::Age,
    }
}

/// The attempt of this number of the entry at a place ends.
pub fn end(
    rows: &mut CountedLines,
    place: usize,
    number: u16,
    verdict: Verdict,
    status: u16,
    at: Moment,
)
    requires { place < length rows.old.rows }
    ensures rows { rows.new.rows ≡ slice_set rows.old.rows place (changed (with_end verdict at.0) (map (end_attempt number verdict status)) (row_there rows.old.rows place)) }
    ensures room { rows.new.room ≡ rows.old.room }
{
    let filed = rows.filed(place);
    rows.end(
        place,
        number,
        verdict,
        status,
        with_end(filed.entry, verdict, at.0),
    );
}

/// The attempt of the entry at a place is lost, where it is live.
pub fn lose(rows: &mut CountedLines, place: usize, at: Moment)
    requires { place < length rows.old.rows }
    ensures rows { rows.new.rows ≡ slice_set rows.old.rows place (changed (with_loss at.0) (map lose_attempt) (row_there rows.old.rows place)) }
    ensures room { rows.new.room ≡ rows.old.room }
{
    let filed = rows.filed(place);
    rows.lose(place, with_loss(filed.entry, at.0));
}

/// The entry at a place is decided, where it is not yet.
fn decide(rows: &mut CountedLines, place: usize, outcome: Outcome)
    requires { place < length rows.old.rows }
    ensures rows { rows.new.rows ≡ slice_set rows.old.rows place (changed (decided_as outcome) (λ before. before) (row_there rows.old.rows place)) }
    ensures room { rows.new.room ≡ rows.old.room }
    ensures begins { rows.new.begins ≡ rows.old.begins }
{
    let filed = rows.filed(place);
    rows.write(place, decided_as(filed.entry, outcome));
}

/// The entry at a place is closed.
pub fn close(rows: &mut CountedLines, place: usize, reason: Reason)
    requires { place < length rows.old.rows }
    ensures rows { rows.new.rows ≡ slice_set rows.old.rows place (changed (decided_as (outcome_of reason)) (λ before. before) (row_there rows.old.rows place)) }
    ensures room { rows.new.room ≡ rows.old.room }
{
    decide(rows, place, outcome_of(reason));
}

/// The entry at a place is cancelled.
pub fn cancel(rows: &mut CountedLines, place: usize)
    requires { place < length rows.old.rows }
    ensures rows { rows.new.rows ≡ slice_set rows.old.rows place (cancelled_row (row_there rows.old.rows place)) }
    ensures room { rows.new.room ≡ rows.old.room }
    ensures begins { rows.new.begins ≡ rows.old.begins }
{
    decide(rows, place, Outcome::Cancelled);
}
