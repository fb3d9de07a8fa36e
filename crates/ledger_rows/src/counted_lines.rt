//! The entries of one incarnation, with a tally of the decided ones.
ghost use Rattle.std.specs.Prelude.{◌≡◌, ◌≤◌, ◌<◌, ◌+◌, [], ◌∷◌, ◌++◌, map, length, slice_set, max, OnOk, OnErr};
ghost use Rattle.sched_plain.specs.Attempts.{begun_attempt, end_attempt, lose_attempt};
ghost use Rattle.sched_plain.specs.Entries.{on_entry, with_begin};
ghost use Rattle.sched_plain.specs.Standing.{standing_of};
ghost use Rattle.entry_lines.specs.Rows.{row_there, new_row, changed};
ghost use Rattle.ledger_rows.specs.Rows.{standings_in};
ghost use Rattle.ledger_rows.specs.Tallying.{tally_of, replaced, IsAmong, IsUpTo};

use crate::tally::{Tally, alone, none, replace};
use entry_lines::{EntryLines, MOST_ENTRIES};
use sched_plain::{Attempt, Entry, Filed, Moment, Pair, Policy, Verdict};
use std::alloc::{AllocError, Global};
use std::marker::Model;

/// The entries of one incarnation, in the order in which they were entered, and how many of them are decided.
#[derive(Drop)]
pub struct CountedLines {
    lines: EntryLines,
    tally: Tally,
}

impl Model for CountedLines {
    ghost use Rattle.std.specs.Prelude.{◌≡◌};
    ghost use Rattle.entry_lines.specs.Rows.{LaneRows};
    ghost use Rattle.ledger_rows.specs.Rows.{standings_in};
    ghost use Rattle.ledger_rows.specs.Tallying.{tally_of};

    ghost Value = { LaneRows };

    ghost view = { λ l. l.lines };

    ghost invariant = { λ l. l.tally ≡ tally_of (standings_in 0 l.lines.rows) };
}

impl CountedLines {
    /// No entries; it takes no memory.
    pub fn new(alloc: Global) -> CountedLines
        ensures rows { result.rows ≡ [] }
        ensures room { result.room ≡ 0 }
        ensures begins { result.begins ≡ 0 }
    {
        CountedLines {
            lines: EntryLines::new(alloc),
            tally: none(),
        }
    }

    /// How many entries are decided; no moment changes that.
    pub fn tally(&self) -> Tally
        ensures { result ≡ tally_of (standings_in 0 self.now.rows) }
    {
        self.tally
    }

    /// How many entries there are.
    pub fn len(&self) -> usize
        ensures value { result ≡ length self.now.rows }
        ensures few { result ≤ MOST_ENTRIES }
    {
        self.lines.len()
    }

    /// The instant of the entry at a place.
    pub fn instant(&self, place: usize) -> u64
        requires { place < length self.now.rows }
        ensures { result ≡ (row_there self.now.rows place).instant }
    {
        self.lines.instant(place)
    }

    /// What is filed at a place.
    pub fn filed(&self, place: usize) -> Filed
        requires { place < length self.now.rows }
        ensures { result ≡ (row_there self.now.rows place).filed }
    {
        self.lines.filed(place)
    }

    /// The attempts of the entry at a place.
    pub fn attempts(&self, place: usize) -> &[Attempt]
        requires { place < length self.now.rows }
        ensures { result.now ≡ (row_there self.now.rows place).attempts }
    {
        self.lines.attempts(place)
    }

    /// Makes room for so many more entries.
    pub fn reserve(&mut self, count: usize) -> Result<(), AllocError>
        requires { count ≤ 65535 }
        ensures rows { self.new.rows ≡ self.old.rows }
        ensures begins { self.new.begins ≡ self.old.begins }
        ensures room { OnOk result (self.new.room ≡ max self.old.room count) }
        ensures kept { OnErr result (self.new.room ≡ self.old.room) }
    {
        self.lines.reserve(count)
    }

    /// Makes room for one more attempt.
    pub fn reserve_begin(&mut self) -> Result<(), AllocError>
        ensures rows { self.new.rows ≡ self.old.rows }
        ensures kept { self.new.room ≡ self.old.room }
        ensures room { OnOk result (1 ≤ self.new.begins) }
    {
        self.lines.reserve_begin()
    }

    /// Adds the entries of these pairs, none of which has an attempt yet. It uses up the room.
    pub fn enter(&mut self, policy: Policy, pairs: &[Pair])
        requires { length pairs.now ≤ self.old.room }
        ensures rows { self.new.rows ≡ self.old.rows ++ map (new_row policy) pairs.now }
        ensures begins { self.new.begins ≡ self.old.begins }
        ensures room { self.new.room + length pairs.now ≤ self.old.room }
    {
        self.lines.enter(policy, pairs);
    }

    /// The next attempt of the entry at a place begins; its number is answered.
    pub fn begin(&mut self, place: usize, epoch: u64, at: Moment) -> u16
        requires there { place < length self.old.rows }
        requires room { 1 ≤ self.old.begins }
        requires few { (row_there self.old.rows place).filed.entry.used < 65535 }
        ensures number { result ≡ (row_there self.old.rows place).filed.entry.used + 1 }
        ensures rows { self.new.rows ≡ slice_set self.old.rows place (changed (with_begin at.0) (λ before. before ++ begun_attempt result at.0 epoch ∷ []) (row_there self.old.rows place)) }
        ensures room { self.new.room ≡ self.old.room }
    {
        self.lines.begin(place, epoch, at)
    }

    /// The attempt of this number of the entry at a place ends, and the entry is this one then.
    pub fn end(&mut self, place: usize, number: u16, verdict: Verdict, status: u16, entry: Entry)
        requires there { place < length self.old.rows }
        requires used { entry.used ≡ (row_there self.old.rows place).filed.entry.used }
        ensures rows { self.new.rows ≡ slice_set self.old.rows place (changed (λ before. entry) (map (end_attempt number verdict status)) (row_there self.old.rows place)) }
        ensures room { self.new.room ≡ self.old.room }
        ensures begins { self.new.begins ≡ self.old.begins }
    {
        turn(&self.lines, &mut self.tally, place, entry);
        self.lines.end(place, number, verdict, status, entry);
    }

    /// The attempts of the entry at a place that are live are lost, and the entry is this one then.
    pub fn lose(&mut self, place: usize, entry: Entry)
        requires there { place < length self.old.rows }
        requires used { entry.used ≡ (row_there self.old.rows place).filed.entry.used }
        ensures rows { self.new.rows ≡ slice_set self.old.rows place (changed (λ before. entry) (map lose_attempt) (row_there self.old.rows place)) }
        ensures room { self.new.room ≡ self.old.room }
        ensures begins { self.new.begins ≡ self.old.begins }
    {
        turn(&self.lines, &mut self.tally, place, entry);
        self.lines.lose(place, entry);
    }

    /// Writes the entry at a place, which has as many attempts as before.
    pub fn write(&mut self, place: usize, entry: Entry)
        requires there { place < length self.old.rows }
        requires used { entry.used ≡ (row_there self.old.rows place).filed.entry.used }
        ensures rows { self.new.rows ≡ slice_set self.old.rows place (changed (λ before. entry) (λ before. before) (row_there self.old.rows place)) }
        ensures room { self.new.room ≡ self.old.room }
        ensures begins { self.new.begins ≡ self.old.begins }
    {
        turn(&self.lines, &mut self.tally, place, entry);
        self.lines.write(place, entry);
    }
}

/// The tally of the entries once the one at a place is this one.
fn turn(lines: &EntryLines, tally: &mut Tally, place: usize, entry: Entry)
    requires there { place < length lines.now.rows }
    requires tally { tally.old ≡ tally_of (standings_in 0 lines.now.rows) }
    ensures { tally.new ≡ replaced tally.old (tally_of (standing_of (row_there lines.now.rows place).filed 0 ∷ [])) (tally_of (standing_of (on_entry (λ before. entry) (row_there lines.now.rows place).filed) 0 ∷ [])) }
{
    let _few = lines.len();
    let filed = lines.filed(place);
    let next = Filed { entry, ..filed };
    replace(tally, alone(&filed), alone(&next));
}
