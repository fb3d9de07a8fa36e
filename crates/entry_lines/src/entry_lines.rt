//! The entries of one incarnation, with their policies and attempts.
ghost use Rattle.std.specs.Prelude.{◌≡◌, ◌≤◌, ◌<◌, ◌+◌, [], ◌∷◌, ◌++◌, map, length, slice_set, max, OnOk, OnErr, vec_len, vec_capacity};
ghost use Rattle.std.specs.List.{insert};
ghost use Rattle.sched_plain.specs.Attempts.{begun_attempt, end_attempt, lose_attempt};
ghost use Rattle.sched_plain.specs.Entries.{with_begin};
ghost use Rattle.entry_lines.specs.Rows.{row_there, new_row, changed};
ghost use Rattle.entry_lines.specs.Written.{new_line, line_at, stop};
ghost use Rattle.entry_lines.specs.Laid.{IsWritten, IsOpened};

use crate::attempts::{end_among, lose_among, put};
use crate::line::Line;
use crate::policies::place_of;
use sched_plain::{Attempt, Entry, Fate, Filed, Last, Moment, Pair, Policy, Verdict};
use std::alloc::{AllocError, Global};
use std::marker::Model;

/// The most entries, policies and attempts of one incarnation; for more, memory is wanting.
pub const MOST_ENTRIES: usize = 1 << 31;

/// The entries of one incarnation, in the order in which they were entered.
#[derive(Drop)]
pub struct EntryLines {
    lines: Vec<Line>,
    policies: Vec<Policy>,
    /// The attempts, those of an entry side by side, in the order of the entries.
    attempts: Vec<Attempt>,
    /// How many more entries there is room for.
    room: usize,
    /// How many more attempts there is room for.
    begins: usize,
}

impl Model for EntryLines {
    ghost use Rattle.std.specs.Prelude.{length, vec_len, vec_capacity};
    ghost use Rattle.entry_lines.specs.Rows.{LaneRows};
    ghost use Rattle.entry_lines.specs.Laid.{rows_of, AreLaid, HasRoom};

    ghost Value = { LaneRows };

    ghost view = { λ l. record { rows = rows_of l.policies.items l.attempts.items l.lines.items; room = l.room; begins = l.begins } };

    ghost invariant = { λ l. AreLaid l.lines.items (length l.policies.items) (length l.attempts.items) × HasRoom (vec_len l.lines) l.room (vec_capacity l.lines) (vec_len l.policies) (vec_capacity l.policies) (vec_len l.attempts) (vec_capacity l.attempts) l.begins };
}

impl EntryLines {
    /// No entries; it takes no memory.
    pub fn new(alloc: Global) -> EntryLines
        ensures rows { result.rows ≡ [] }
        ensures room { result.room ≡ 0 }
        ensures begins { result.begins ≡ 0 }
    {
        EntryLines {
            lines: Vec::new(alloc),
            policies: Vec::new(alloc),
            attempts: Vec::new(alloc),
            room: 0,
            begins: 0,
        }
    }

    /// How many entries there are.
    pub fn len(&self) -> usize
        ensures value { result ≡ length self.now.rows }
        ensures few { result ≤ MOST_ENTRIES }
    {
        let _room = self.room;
        self.lines.len()
    }

    /// The instant of the entry at a place.
    pub fn instant(&self, place: usize) -> u64
        requires { place < length self.now.rows }
        ensures { result ≡ (row_there self.now.rows place).instant }
    {
        let line = &self.lines[place];
        line.instant()
    }

    /// What is filed at a place.
    pub fn filed(&self, place: usize) -> Filed
        requires { place < length self.now.rows }
        ensures { result ≡ (row_there self.now.rows place).filed }
    {
        let line = &self.lines[place];
        Filed {
            entry: line.entry(),
            policy: self.policies[line.policy()],
        }
    }

    /// The attempts of the entry at a place.
    pub fn attempts(&self, place: usize) -> &[Attempt]
        requires { place < length self.now.rows }
        ensures { result.now ≡ (row_there self.now.rows place).attempts }
    {
        let line = &self.lines[place];
        let from = line.start();
        let to = from + line.entry().used as usize;
        &self.attempts[from..to]
    }

    /// Makes room for so many more entries.
    pub fn reserve(&mut self, count: usize) -> Result<(), AllocError>
        requires { count ≤ 65535 }
        ensures rows { self.new.rows ≡ self.old.rows }
        ensures begins { self.new.begins ≡ self.old.begins }
        ensures room { OnOk result (self.new.room ≡ max self.old.room count) }
        ensures kept { OnErr result (self.new.room ≡ self.old.room) }
    {
        if self.lines.len() > MOST_ENTRIES - count || self.policies.len() >= MOST_ENTRIES {
            return Err(AllocError);
        }
        self.lines.reserve(count)?;
        self.policies.reserve(1)?;
        self.room = self.room.max(count);
        Ok(())
    }

    /// Makes room for one more attempt.
    pub fn reserve_begin(&mut self) -> Result<(), AllocError>
        ensures rows { self.new.rows ≡ self.old.rows }
        ensures kept { self.new.room ≡ self.old.room }
        ensures room { OnOk result (1 ≤ self.new.begins) }
    {
        if self.attempts.len() >= MOST_ENTRIES {
            return Err(AllocError);
        }
        self.attempts.reserve(1)?;
        self.begins = self.begins.max(1);
        Ok(())
    }

    /// Adds the entries of these pairs, none of which has an attempt yet. It uses up the room.
    pub fn enter(&mut self, policy: Policy, pairs: &[Pair])
        requires { length pairs.now ≤ self.old.room }
        ensures rows { self.new.rows ≡ self.old.rows ++ map (new_row policy) pairs.now }
        ensures begins { self.new.begins ≡ self.old.begins }
        ensures room { self.new.room + length pairs.now ≤ self.old.room }
    {
        if pairs.len() > 0 {
            let place = place_of(&mut self.policies, policy);
            let start = self.attempts.len();
            add_lines(&mut self.lines, pairs, start as u32, place as u32);
            self.room = 0;
        }
    }

    /// The next attempt of the entry at a place begins; its number is answered.
    pub fn begin(&mut self, place: usize, epoch: u64, at: Moment) -> u16
        requires there { place < length self.old.rows }
        requires room { 1 ≤ self.old.begins }
        requires few { (row_there self.old.rows place).filed.entry.used < 65535 }
        ensures number { result ≡ (row_there self.old.rows place).filed.entry.used + 1 }
        ensures rows { self.new.rows ≡ slice_set self.old.rows place (changed (with_begin at.0) (λ before. before ++ begun_attempt result at.0 epoch ∷ []) (row_there self.old.rows place)) }
        ensures room { self.new.room ≡ self.old.room }
    {
        let line = &self.lines[place];
        let entry = line.entry();
        let stop = line.start() + entry.used as usize;
        let number = entry.used + 1;
        let attempt = Attempt {
            number,
            begun: at,
            epoch,
            fate: Fate::Live,
        };
        put(&mut self.attempts, stop, attempt);
        open_line(&mut self.lines, place, begun(entry, number, at.0));
        self.begins -= 1;
        number
    }

    /// The attempt of this number of the entry at a place ends, and the entry is this one then.
    pub fn end(&mut self, place: usize, number: u16, verdict: Verdict, status: u16, entry: Entry)
        requires there { place < length self.old.rows }
        requires used { entry.used ≡ (row_there self.old.rows place).filed.entry.used }
        ensures rows { self.new.rows ≡ slice_set self.old.rows place (changed (λ before. entry) (map (end_attempt number verdict status)) (row_there self.old.rows place)) }
        ensures room { self.new.room ≡ self.old.room }
        ensures begins { self.new.begins ≡ self.old.begins }
    {
        let line = &self.lines[place];
        let from = line.start();
        let to = from + line.entry().used as usize;
        end_among(&mut self.attempts, from, to, number, verdict, status);
        write_line(&mut self.lines, place, entry);
    }

    /// The attempts of the entry at a place that are live are lost, and the entry is this one then.
    pub fn lose(&mut self, place: usize, entry: Entry)
        requires there { place < length self.old.rows }
        requires used { entry.used ≡ (row_there self.old.rows place).filed.entry.used }
        ensures rows { self.new.rows ≡ slice_set self.old.rows place (changed (λ before. entry) (map lose_attempt) (row_there self.old.rows place)) }
        ensures room { self.new.room ≡ self.old.room }
        ensures begins { self.new.begins ≡ self.old.begins }
    {
        let line = &self.lines[place];
        let from = line.start();
        let to = from + line.entry().used as usize;
        lose_among(&mut self.attempts, from, to);
        write_line(&mut self.lines, place, entry);
    }

    /// Writes the entry at a place, which has as many attempts as before.
    pub fn write(&mut self, place: usize, entry: Entry)
        requires there { place < length self.old.rows }
        requires used { entry.used ≡ (row_there self.old.rows place).filed.entry.used }
        ensures rows { self.new.rows ≡ slice_set self.old.rows place (changed (λ before. entry) (λ before. before) (row_there self.old.rows place)) }
        ensures room { self.new.room ≡ self.old.room }
        ensures begins { self.new.begins ≡ self.old.begins }
    {
        write_line(&mut self.lines, place, entry);
    }
}

fn begun(entry: Entry, number: u16, at: u64) -> Entry
    ensures { number ≡ entry.used + 1 → result ≡ with_begin at entry }
{
    Entry {
        used: number,
        last: Last::Live { at },
        ..entry
    }
}

/// Adds a line for each of these pairs, where there is room for them.
fn add_lines(lines: &mut Vec<Line>, pairs: &[Pair], start: u32, policy: u32)
    requires { vec_len lines.old + length pairs.now ≤ vec_capacity lines.old }
    ensures items { lines.new.items ≡ lines.old.items ++ map (λ pair. new_line pair start policy) pairs.now }
    ensures capacity { vec_capacity lines.old ≤ vec_capacity lines.new }
{
    for pair in pairs {
        put_line(lines, Line::new(*pair, start, policy));
    }
}

fn put_line(lines: &mut Vec<Line>, line: Line)
    requires { vec_len lines.old < vec_capacity lines.old }
    ensures items { lines.new.items ≡ lines.old.items ++ line ∷ [] }
    ensures len { vec_len lines.new ≡ vec_len lines.old + 1 }
    ensures capacity { vec_capacity lines.old ≤ vec_capacity lines.new }
{
    let _ = lines.push(line);
}

/// Writes the entry of a line.
fn write_line(lines: &mut Vec<Line>, place: usize, entry: Entry)
    requires { place < vec_len lines.old }
    ensures written { IsWritten lines.old.items lines.new.items place entry }
    ensures size { (vec_len lines.new ≡ vec_len lines.old) × (vec_capacity lines.new ≡ vec_capacity lines.old) }
{
    let line = &mut lines[place];
    line.write(entry);
}

/// Writes the entry of a line, with one attempt more, before which those of the later entries make place.
fn open_line(lines: &mut Vec<Line>, place: usize, entry: Entry)
    requires { place < vec_len lines.old }
    ensures opened { IsOpened lines.old.items lines.new.items place entry }
    ensures size { (vec_len lines.new ≡ vec_len lines.old) × (vec_capacity lines.new ≡ vec_capacity lines.old) }
{
    write_line(lines, place, entry);
    for later in place + 1..lines.len() {
        let line = &mut lines[later];
        line.move_on();
    }
}
