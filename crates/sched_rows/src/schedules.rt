//! The schedules, living and ended, with the indexes of those that live.
ghost use Rattle.std.specs.Prelude.{◌≡◌, ℕ, ◌≤◌, ◌<◌, ◌+◌, ◌-◌, ◌==◌, not, true, None, [], ◌∷◌, ◌++◌, map, length, List, OnOk, IfOk, IfSome, vec_len, vec_capacity};
ghost use Rattle.std.specs.List.{filter, insert};
ghost use Rattle.std.specs.Option.{option_and_then, option_copied, option_map};
ghost use Rattle.plain_words.specs.Lists.{nth, change_nth, some_pass};
ghost use Rattle.sched_plain.specs.Rows.{done_to, removed_at, revision_from, incs_where, living, is_at, is_in, ends_if, renews_if, Renews, Ends};
ghost use Rattle.sched_plain.specs.Groups.{living_count};
ghost use Rattle.sched_rows.specs.State.{rows_in, rooms_in, lives_at, IsRoomy};
ghost use Rattle.sched_calls.specs.Replies.{is_listed, list_rows, page_of};
ghost use Rattle.sched_rows.specs.Answers.{next_living};
ghost use Rattle.sched_rows.specs.Groups.{with_group_ended, change_all};
ghost use Rattle.sched_rows.specs.Spans.{AllSpanned};

use crate::by_name::{living_at, place_of, row_at};
use crate::by_number::next_living;
use crate::edge::Edge;
use crate::lists::page_of;
use crate::order::is_in;
use crate::row::KeptRow;
use sched_calls::Page;
use sched_plain::{LAST_MOMENT, MOST_INCARNATIONS, Moment, Name, Revision, Schedule, Text};
use std::alloc::{AllocError, Global};
use std::marker::Model;
use std::mem;

/// The schedules: a row for each incarnation, by its number; the numbers of the living in their order, and the same by
/// group and name.
#[derive(Drop)]
pub struct Schedules {
    rows: Vec<KeptRow>,
    by_number: Vec<u32>,
    by_name: Vec<u32>,
    /// Room for the revisions of the next row.
    spare: Vec<Revision>,
    latest: u64,
}

impl Model for Schedules {
    ghost use Rattle.std.specs.Prelude.{◌≡◌, ◌-◌, min, [], vec_len, vec_capacity};
    ghost use Rattle.sched_rows.specs.State.{Roll, rows_in};
    ghost use Rattle.sched_rows.specs.Filing.{IsFiled};

    ghost Value = { Roll };

    ghost view = { λ s. record {
      rows = s.rows.items;
      latest = s.latest;
      room = min (min (vec_capacity s.rows - vec_len s.rows) (vec_capacity s.spare))
          (min (vec_capacity s.by_number - vec_len s.by_number) (vec_capacity s.by_name - vec_len s.by_name));
    } };

    ghost invariant = { λ s. IsFiled (rows_in s.rows.items) s.by_number.items s.by_name.items s.latest × (s.spare.items ≡ []) };
}

/// Takes a number out of a list.
fn take_out(numbers: &mut Vec<u32>, number: u32)
    ensures { numbers.new.items ≡ filter (λ n. not (n == number)) numbers.old.items }
{
    numbers.retain(|n| *n != number);
}

/// Whether the row of a number lives.
fn lives_at(rows: &[KeptRow], number: u32) -> bool
    ensures { result ≡ lives_at (rows_in rows.now) number }
{
    match row_at(rows, number) {
        Some(row) => row.lives(),
        None => false,
    }
}

/// Keeps the numbers of living rows.
fn keep_living(numbers: &mut Vec<u32>, rows: &[KeptRow])
    ensures { numbers.new.items ≡ filter (lives_at (rows_in rows.now)) numbers.old.items }
{
    numbers.retain(|n| lives_at(rows, *n));
}

/// Adds a number at the end, where there is room.
fn push_number(numbers: &mut Vec<u32>, number: u32)
    requires { vec_len numbers.old < vec_capacity numbers.old }
    ensures { numbers.new.items ≡ numbers.old.items ++ number ∷ [] }
{
    let _ = numbers.push(number);
}

/// Inserts a number at a place, where there is room.
fn insert_number(numbers: &mut Vec<u32>, place: usize, number: u32)
    requires room { vec_len numbers.old < vec_capacity numbers.old }
    requires within { place ≤ length numbers.old.items }
    ensures { numbers.new.items ≡ insert numbers.old.items place number }
{
    let _ = numbers.insert(place, number);
}

/// Adds a row at the end, where there is room.
fn push_row(rows: &mut Vec<KeptRow>, row: KeptRow)
    requires { vec_len rows.old < vec_capacity rows.old }
    ensures { rows.new.items ≡ rows.old.items ++ row ∷ [] }
{
    let _ = rows.push(row);
}

/// Gives the row of a number a content.
fn renew_at(rows: &mut Vec<KeptRow>, number: u32, at: Moment, content: Schedule)
    requires from { 1 ≤ number }
    requires to { number ≤ length rows.old.items }
    requires moment { at.0 ≤ LAST_MOMENT }
    requires spans { AllSpanned at.0 (rows_in rows.old.items) }
    requires room { IsRoomy (nth (rooms_in rows.old.items) number) }
    ensures { rows_in rows.new.items ≡ change_nth (done_to at.0 (Renews content)) (rows_in rows.old.items) number }
{
    let row = &mut rows[number as usize - 1];
    row.renew(at, content);
}

/// Makes room for a further revision of the row of a number, if there is one.
fn reserve_at(rows: &mut Vec<KeptRow>, number: u32) -> Result<(), AllocError>
    ensures rows { rows_in rows.new.items ≡ rows_in rows.old.items }
    ensures room { OnOk result (IsRoomy (nth (rooms_in rows.new.items) number)) }
{
    if number == 0 {
        return Ok(());
    }
    if number as usize > rows.len() {
        return Ok(());
    }
    let row = &mut rows[number as usize - 1];
    row.reserve()
}

/// Ends the row of a number.
fn end_at(rows: &mut Vec<KeptRow>, number: u32, at: Moment)
    requires from { 1 ≤ number }
    requires to { number ≤ length rows.old.items }
    requires spans { AllSpanned at.0 (rows_in rows.old.items) }
    ensures { rows_in rows.new.items ≡ change_nth (done_to at.0 Ends) (rows_in rows.old.items) number }
{
    let row = &mut rows[number as usize - 1];
    row.end(at);
}

/// Removes the row of a number from the living.
fn remove_at(rows: &mut Vec<KeptRow>, number: u32, at: Moment)
    requires from { 1 ≤ number }
    requires to { number ≤ length rows.old.items }
    requires spans { AllSpanned at.0 (rows_in rows.old.items) }
    ensures { rows_in rows.new.items ≡ change_nth (removed_at at.0) (rows_in rows.old.items) number }
{
    let row = &mut rows[number as usize - 1];
    row.remove(at);
}

/// Ends the row of a number where it is a living one of a group.
fn end_member(rows: &mut Vec<KeptRow>, number: u32, group: &Name, at: Moment)
    requires { AllSpanned at.0 (rows_in rows.old.items) }
    ensures rows { rows_in rows.new.items ≡ change_nth (with_group_ended at.0 group.now) (rows_in rows.old.items) number }
    ensures spans { AllSpanned at.0 (rows_in rows.new.items) }
{
    if is_member(rows, number, group) {
        end_at(rows, number, at);
    }
}

/// Whether the row of a number is a living one of a group.
fn is_member(rows: &[KeptRow], number: u32, group: &Name) -> bool
    ensures { result ≡ some_pass (is_in group.now) (nth (rows_in rows.now) number) }
{
    match row_at(rows, number) {
        Some(row) => is_in(row, group),
        None => false,
    }
}

/// Ends those of some rows that are living ones of a group, one after another.
fn end_members(rows: &mut Vec<KeptRow>, numbers: &[u32], group: &Name, at: Moment)
    requires { AllSpanned at.0 (rows_in rows.old.items) }
    ensures { rows_in rows.new.items ≡ change_all (with_group_ended at.0 group.now) (rows_in rows.old.items) numbers.now }
{
    for number in numbers {
        end_member(rows, *number, group, at);
    }
}

impl Schedules {
    /// No schedules yet. It takes no memory.
    pub fn new(alloc: Global) -> Schedules
        ensures rows { result.rows ≡ [] }
        ensures latest { result.latest ≡ 0 }
    {
        Schedules {
            rows: Vec::new(alloc),
            by_number: Vec::new(alloc),
            by_name: Vec::new(alloc),
            spare: Vec::new(alloc),
            latest: 0,
        }
    }

    /// The row of an incarnation, also of one that has ended.
    pub fn row(&self, inc: u32) -> Option<&KeptRow>
        ensures { option_copied result ≡ nth self.now.rows inc }
    {
        row_at(&self.rows, inc)
    }

    /// The incarnation that lives under a group and a name.
    pub fn live(&self, group: &Name, name: &Name) -> Option<u32>
        ensures living { result ≡ living (rows_in self.now.rows) group.now name.now }
        ensures alone { IfSome result (λ inc. incs_where (is_at group.now name.now) (rows_in self.now.rows) ≡ inc ∷ []) }
    {
        living_at(&self.rows, &self.by_name, group, name)
    }

    /// Whether an incarnation lives.
    pub fn lives(&self, inc: u32) -> bool
        ensures { result ≡ lives_at (rows_in self.now.rows) inc }
    {
        lives_at(&self.rows, inc)
    }

    /// The moment of the latest change.
    pub fn latest(&self) -> u64
        ensures { result ≡ self.now.latest }
    {
        self.latest
    }

    /// How many schedules live.
    pub fn living_count(&self) -> u64
        ensures { result ≡ living_count (rows_in self.now.rows) }
    {
        self.by_number.as_slice().len() as u64
    }

    /// How many schedules were ever created.
    pub fn created_count(&self) -> u64
        ensures { result ≡ length self.now.rows }
    {
        self.rows.len() as u64
    }

    /// Makes room for a new row. After an `Err` nothing has changed but room.
    pub fn reserve_row(&mut self) -> Result<(), AllocError>
        ensures rows { self.new.rows ≡ self.old.rows }
        ensures latest { self.new.latest ≡ self.old.latest }
        ensures room { OnOk result (1 ≤ self.new.room) }
    {
        self.rows.reserve(1)?;
        self.by_number.reserve(1)?;
        self.by_name.reserve(1)?;
        self.spare.reserve(1)
    }

    /// Creates a schedule, where none lives under its name: a new incarnation, with the next number.
    pub fn create(&mut self, at: Moment, group: Name, name: Name, content: Schedule)
        requires room { 1 ≤ self.old.room }
        requires few { length self.old.rows < MOST_INCARNATIONS }
        requires free { living (rows_in self.old.rows) group name ≡ None }
        requires moment { self.old.latest ≤ at.0 }
        ensures rows { rows_in self.new.rows ≡ rows_in self.old.rows ++ record { group = group; name = name; created = at; changed = at; lives = true; revisions = revision_from at.0 content ∷ [] } ∷ [] }
        ensures latest { self.new.latest ≡ at.0 }
    {
        let alloc: Global = *self.rows.allocator();
        let number = self.rows.len() as u32 + 1;
        let place = place_of(
            &self.rows,
            &self.by_name,
            group.as_bytes(),
            name.as_bytes(),
            Edge::Before,
        );
        let revisions = mem::replace(&mut self.spare, Vec::new(alloc));
        push_row(
            &mut self.rows,
            KeptRow::born(at, group, name, content, revisions),
        );
        push_number(&mut self.by_number, number);
        insert_number(&mut self.by_name, place, number);
        self.latest = at.0;
    }

    /// Gives a living schedule a new content, from the moment after this one on.
    pub fn renew(&mut self, inc: u32, at: Moment, content: Schedule)
        requires room { IsRoomy (nth (rooms_in self.old.rows) inc) }
        requires lives { lives_at (rows_in self.old.rows) inc ≡ true }
        requires moment { self.old.latest ≤ at.0 }
        requires last { at.0 ≤ LAST_MOMENT }
        ensures rows { rows_in self.new.rows ≡ change_nth (done_to at.0 (Renews content)) (rows_in self.old.rows) inc }
        ensures latest { self.new.latest ≡ at.0 }
    {
        renew_at(&mut self.rows, inc, at, content);
        self.latest = at.0;
    }

    /// Ends a living schedule, by its deletion.
    pub fn end(&mut self, inc: u32, at: Moment)
        requires lives { lives_at (rows_in self.old.rows) inc ≡ true }
        requires moment { self.old.latest ≤ at.0 }
        ensures rows { rows_in self.new.rows ≡ change_nth (done_to at.0 Ends) (rows_in self.old.rows) inc }
        ensures latest { self.new.latest ≡ at.0 }
    {
        end_at(&mut self.rows, inc, at);
        take_out(&mut self.by_number, inc);
        take_out(&mut self.by_name, inc);
        self.latest = at.0;
    }

    /// Removes a living schedule that is finished.
    pub fn remove(&mut self, inc: u32, at: Moment)
        requires lives { lives_at (rows_in self.old.rows) inc ≡ true }
        requires moment { self.old.latest ≤ at.0 }
        ensures rows { rows_in self.new.rows ≡ change_nth (removed_at at.0) (rows_in self.old.rows) inc }
        ensures latest { self.new.latest ≡ at.0 }
    {
        remove_at(&mut self.rows, inc, at);
        take_out(&mut self.by_number, inc);
        take_out(&mut self.by_name, inc);
        self.latest = at.0;
    }

    /// Ends all living schedules of a group.
    pub fn end_group(&mut self, group: &Name, at: Moment)
        requires { self.old.latest ≤ at.0 }
        ensures rows { rows_in self.new.rows ≡ map (with_group_ended at.0 group.now) (rows_in self.old.rows) }
        ensures latest { self.new.latest ≡ at.0 }
    {
        end_members(&mut self.rows, &self.by_number, group, at);
        keep_living(&mut self.by_number, &self.rows);
        keep_living(&mut self.by_name, &self.rows);
        self.latest = at.0;
    }

    /// Notes a change that touches no schedule.
    pub fn pass(&mut self, at: Moment)
        requires { self.old.latest ≤ at.0 }
        ensures rows { self.new.rows ≡ self.old.rows }
        ensures latest { self.new.latest ≡ at.0 }
    {
        self.latest = at.0;
    }
    /// The least living incarnation above one, of a group where one is asked for.
    pub fn next_living(&self, group: Option<&Name>, after: u32) -> Option<u32>
        ensures { result ≡ next_living (rows_in self.now.rows) (option_map (λ g. g.now) group.entry) after }
    {
        next_living(&self.rows, &self.by_number, group, after)
    }

    /// Makes room for a further revision of the living schedule of a name, if there is one. After an `Err` nothing has
    /// changed but room.
    pub fn reserve_update(&mut self, group: &Name, name: &Name) -> Result<(), AllocError>
        ensures rows { rows_in self.new.rows ≡ rows_in self.old.rows }
        ensures latest { self.new.latest ≡ self.old.latest }
        ensures room { OnOk result (IsRoomy (option_and_then (nth (rooms_in self.new.rows)) (living (rows_in self.new.rows) group.now name.now))) }
    {
        match self.live(group, name) {
            Some(inc) => reserve_at(&mut self.rows, inc),
            None => Ok(()),
        }
    }

    /// Updates the living schedule of a name, if there is one.
    pub fn update(&mut self, group: &Name, name: &Name, at: Moment, content: Schedule)
        requires room { IsRoomy (option_and_then (nth (rooms_in self.old.rows)) (living (rows_in self.old.rows) group.now name.now)) }
        requires moment { self.old.latest ≤ at.0 }
        requires last { at.0 ≤ LAST_MOMENT }
        ensures rows { rows_in self.new.rows ≡ map (λ row. done_to at.0 (renews_if (is_at group.now name.now row) content) row) (rows_in self.old.rows) }
        ensures latest { self.new.latest ≡ at.0 }
    {
        match self.live(group, name) {
            Some(inc) => self.renew(inc, at, content),
            None => self.pass(at),
        }
    }

    /// Deletes the living schedule of a name, if there is one.
    pub fn delete(&mut self, group: &Name, name: &Name, at: Moment)
        requires { self.old.latest ≤ at.0 }
        ensures rows { rows_in self.new.rows ≡ map (λ row. done_to at.0 (ends_if (is_at group.now name.now row)) row) (rows_in self.old.rows) }
        ensures latest { self.new.latest ≡ at.0 }
    {
        match self.live(group, name) {
            Some(inc) => self.end(inc, at),
            None => self.pass(at),
        }
    }
    /// The first schedules of a list behind a name, at most so many, and whether more follow.
    pub fn list(
        &self,
        alloc: Global,
        group: Option<&Name>,
        prefix: &Text,
        enabled: Option<bool>,
        after: Option<(&Name, &Name)>,
        max: u8,
    ) -> Result<Page, AllocError>
        ensures { IfOk result (λ page. page ≡ page_of max (filter (is_listed (option_map (λ g. g.now) group.entry) prefix.now enabled (option_map {U = List ℕ × List ℕ} (λ names. (names.0.now, names.1.now)) after.entry)) (list_rows (rows_in self.now.rows)))) }
    {
        page_of(
            alloc,
            &self.rows,
            &self.by_name,
            group,
            prefix,
            enabled,
            after,
            max,
        )
    }
}
