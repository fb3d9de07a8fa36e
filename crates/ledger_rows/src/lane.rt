//! The entries of one incarnation.
ghost use Rattle.std.specs.Prelude.{◌≡◌, ℕ, ◌+◌, ◌≤◌, ◌<◌, true, Some, None, [], ◌∷◌, ◌++◌, map, length, ◌-◌, vec_len, vec_capacity, IfSome, IfNone, IsSome, OnOk};
ghost use Rattle.plain_words.specs.declared.limits.TheConstants.{LAST_MOMENT};
ghost use Rattle.sched_plain.specs.Attempts.{begun_attempt, end_attempt, lose_attempt};
ghost use Rattle.plain_words.specs.Lists.{last, some_pass};
ghost use Rattle.sched_plain.specs.Standing.{standing_of};
ghost use Rattle.sched_plain.specs.Report.{is_due};
ghost use Rattle.policy_rules.specs.LastAttempt.{last_at};
ghost use Rattle.ledger_rows.specs.Tallying.{tally_of, open_counts, AreUpTo, IsUpTo};
ghost use Rattle.sched_plain.specs.Entries.{instants_of, with_begin, with_end, with_loss, decided_as, outcome_of};
ghost use Rattle.ledger_rows.specs.Rows.{row_at, filed_at, attempts_at, instants_in, pairs_of, IsPlace, IsCut, IsRising, IsBehind, IsSmallFiled, IsSmallRow, IsLane, IsEntrance, IsTop, IsAbove, Changes, cancelled_row, open_in, standings_looked};
ghost use Rattle.entry_lines.specs.Rows.{new_row};
ghost use Rattle.ledger_rows.specs.Wanting.{answers, IsFirstIn};
ghost use Rattle.ledger_rows.specs.State.{lane_of};
ghost use Rattle.ledger_rows.specs.Numbers.{bound_at, lane_number};
ghost use Rattle.ledger_rows.specs.Blocks.{IsWhole, AreBlocksSoFar};
ghost use Rattle.std.specs.List.{All};

use crate::blocks::{PER_BLOCK, fill_last, first_from, number_more, renumber};
use crate::counted_lines::CountedLines;
use crate::open_entries::{OpenCounts, no_counts, with_standing};
use crate::question::Question;
use crate::row;
use crate::tally::Tally;
use crate::wants::{IN_AIR, bound_at};
use entry_lines::MOST_ENTRIES;
use min_tree::MinTree;
use policy_rules::{LAST_CHOSEN, standing};
use sched_plain::{Attempt, Filed, Moment, Pair, Policy, Reason, Standing, Verdict};
use std::alloc::{AllocError, Global};
use std::marker::Model;

/// The entries of one incarnation, in the order of their instants, and room for more.
#[derive(Drop)]
pub struct Lane {
    rows: CountedLines,
    /// The least number of each block of entries, by which what is to do is found.
    wants: MinTree,
}

impl Model for Lane {
    ghost use Rattle.entry_lines.specs.Rows.{LaneRows};
    ghost use Rattle.ledger_rows.specs.Blocks.{IsWhole};

    ghost Value = { LaneRows };

    ghost view = { λ l. l.rows };

    ghost invariant = { λ l. IsWhole l.rows l.wants };
}

impl Lane {
    /// No entries; it takes no memory.
    pub fn new(alloc: Global) -> Lane
        ensures rows { result.rows ≡ [] }
        ensures room { result.room ≡ 0 }
    {
        Lane {
            rows: CountedLines::new(alloc),
            wants: MinTree::new(alloc),
        }
    }

    /// What is filed at an instant.
    pub fn filed(&self, instant: u64) -> Option<Filed>
        ensures value { result ≡ filed_at self.now.rows instant }
        ensures small { IfSome result IsSmallFiled }
    {
        filed_in(&self.rows, instant)
    }

    /// The attempts of the entry at an instant; none where it has none.
    pub fn attempts(&self, instant: u64) -> &[Attempt]
        ensures { result.now ≡ attempts_at self.now.rows instant }
    {
        match place_of(&self.rows, instant) {
            Some(place) => self.rows.attempts(place),
            None => &[],
        }
    }

    /// The next attempt of the entry at an instant begins; its number is answered.
    pub fn begin(&mut self, instant: u64, epoch: u64, at: Moment) -> u16
        requires room { IsSome (filed_at self.old.rows instant) → 1 ≤ self.old.begins }
        requires due { some_pass (λ f. is_due (standing_of f at.0)) (filed_at self.old.rows instant) ≡ true }
        requires at { at.0 ≤ LAST_MOMENT }
        ensures number { IfSome (filed_at self.old.rows instant) (λ f. result ≡ f.entry.used + 1) }
        ensures changes { Changes self.old.rows self.new.rows instant (with_begin at.0) (λ before. before ++ begun_attempt result at.0 epoch ∷ []) }
    {
        begin_in(&mut self.rows, &mut self.wants, instant, epoch, at)
    }

    /// The attempt of this number of the entry at an instant ends.
    pub fn end(&mut self, instant: u64, number: u16, verdict: Verdict, status: u16, at: Moment)
        requires { at.0 ≤ LAST_MOMENT }
        ensures changes { Changes self.old.rows self.new.rows instant (with_end verdict at.0) (map (end_attempt number verdict status)) }
    {
        let wants = &mut self.wants;
        end_in(&mut self.rows, wants, instant, number, verdict, status, at);
    }

    /// The entry at an instant is closed.
    pub fn close(&mut self, instant: u64, reason: Reason)
        ensures changes { Changes self.old.rows self.new.rows instant (decided_as (outcome_of reason)) (λ before. before) }
    {
        close_in(&mut self.rows, &mut self.wants, instant, reason);
    }

    /// Adds the entries of these pairs, none of which has an attempt yet.
    pub fn enter(&mut self, policy: Policy, pairs: &[Pair])
        requires room { length pairs.now ≤ self.old.room }
        requires entrance { IsEntrance (pairs_of self.old.rows) pairs.now }
        ensures rows { self.new.rows ≡ self.old.rows ++ map (new_row policy) pairs.now }
    {
        enter_in(&mut self.rows, &mut self.wants, policy, pairs);
    }

    /// Cancels the entries that are not decided.
    pub fn cancel(&mut self)
        ensures { self.new ≡ record self.old { rows = map cancelled_row self.old.rows } }
    {
        cancel_in(&mut self.rows, &mut self.wants);
    }

    /// The attempt of the entry at an instant is lost, where it is live.
    pub fn lose(&mut self, instant: u64, at: Moment)
        requires { at.0 ≤ LAST_MOMENT }
        ensures changes { Changes self.old.rows self.new.rows instant (with_loss at.0) (map lose_attempt) }
    {
        lose_in(&mut self.rows, &mut self.wants, instant, at);
    }

    /// The first entry, by its instant, whose chosen moment has come and that is exhausted or due.
    pub fn first_due(&self, now: u64) -> Option<u64>
        ensures first { IsFirstIn (λ k. answers (Question.ToAct now) (filed_at self.now.rows k)) result }
        ensures none { IfNone result (bound_at now < lane_number self.now.rows) }
    {
        first_due_in(&self.rows, &self.wants, now)
    }

    /// The least number of its entries.
    pub fn least(&self) -> u64
        ensures value { result ≡ lane_number self.now.rows }
        ensures small { All IsSmallRow self.now.rows }
    {
        self.wants.least()
    }

    /// Whether these pairs may be entered behind the entries.
    pub fn may_enter(&self, pairs: &[Pair]) -> bool
        ensures says { result ≡ true → IsEntrance (pairs_of self.now.rows) pairs.now }
        ensures all { IsEntrance (pairs_of self.now.rows) pairs.now → result ≡ true }
    {
        may_follow(&self.rows, pairs)
    }

    /// The instant of the last entry.
    pub fn last_instant(&self) -> Option<u64>
        ensures { result ≡ last (instants_of (pairs_of self.now.rows)) }
    {
        final_instant(&self.rows)
    }

    /// How many entries are not decided.
    pub fn undecided(&self) -> u64
        ensures { result ≡ open_in self.now.rows }
    {
        undecided_in(&self.rows, &self.wants)
    }

    /// How many entries are decided; no moment changes that.
    pub fn tally(&self) -> Tally
        ensures value { result ≡ tally_of (standings_looked 0 self.now.rows) }
        ensures few { length (pairs_of self.now.rows) ≤ MOST_ENTRIES }
        ensures small { IsUpTo MOST_ENTRIES result }
    {
        tally_in(&self.rows)
    }

    /// How the entries that are not decided stand at a moment.
    pub fn open_counts(&self, now: Moment) -> OpenCounts
        ensures value { result ≡ open_counts (standings_looked now.0 self.now.rows) }
        ensures few { AreUpTo MOST_ENTRIES result }
    {
        open_counts_in(&self.rows, &self.wants, now)
    }

    /// Makes room for one more attempt.
    pub fn reserve_begin(&mut self) -> Result<(), AllocError>
        ensures rows { self.new.rows ≡ self.old.rows }
        ensures lane { self.new.room ≡ self.old.room }
        ensures room { OnOk result (1 ≤ self.new.begins) }
    {
        self.rows.reserve_begin()
    }

    /// Makes room for so many more entries.
    pub fn reserve(&mut self, count: usize) -> Result<(), AllocError>
        requires { count ≤ 65535 }
        ensures rows { self.new.rows ≡ self.old.rows }
        ensures room { OnOk result (count ≤ self.new.room) }
    {
        self.wants.reserve_many(count / PER_BLOCK + 1)?;
        self.rows.reserve(count)
    }
}

/// What is filed for an occurrence.
pub fn filed_of(lanes: &[Lane], inc: u32, instant: u64) -> Option<Filed>
    ensures value { result ≡ filed_at (lane_of lanes.now inc).rows instant }
    ensures small { IfSome result IsSmallFiled }
{
    if inc as usize >= lanes.len() {
        return None;
    }
    let lane = &lanes[inc as usize];
    lane.filed(instant)
}

/// The attempts of an occurrence.
pub fn attempts_of(lanes: &[Lane], inc: u32, instant: u64) -> &[Attempt]
    ensures { result.now ≡ attempts_at (lane_of lanes.now inc).rows instant }
{
    if inc as usize >= lanes.len() {
        return &[];
    }
    let lane = &lanes[inc as usize];
    lane.attempts(instant)
}

fn filed_in(rows: &CountedLines, instant: u64) -> Option<Filed>
    requires { IsLane rows.now.rows }
    ensures value { result ≡ filed_at rows.now.rows instant }
    ensures small { IfSome result IsSmallFiled }
{
    match place_of(rows, instant) {
        Some(place) => Some(rows.filed(place)),
        None => None,
    }
}

/// The first place whose instant is not before this one.
fn first_not_before(rows: &CountedLines, instant: u64) -> usize
    requires { IsRising rows.now.rows }
    ensures { IsCut rows.now.rows instant result }
{
    let mut low = 0;
    let mut high = rows.len();
    while low < high {
        let middle = low + (high - low) / 2;
        if rows.instant(middle) < instant {
            low = middle + 1;
        } else {
            high = middle;
        }
    }
    low
}

/// The place of the entry at an instant.
fn place_of(rows: &CountedLines, instant: u64) -> Option<usize>
    requires { IsRising rows.now.rows }
    ensures some { IfSome result (IsPlace rows.now.rows instant) }
    ensures none { IfNone result (row_at rows.now.rows instant ≡ None) }
{
    let place = first_not_before(rows, instant);
    if place >= rows.len() {
        return None;
    }
    if rows.instant(place) != instant {
        return None;
    }
    Some(place)
}

fn begin_in(
    rows: &mut CountedLines,
    wants: &mut MinTree,
    instant: u64,
    epoch: u64,
    at: Moment,
) -> u16
    requires whole { IsWhole rows.old wants.old }
    requires room { IsSome (filed_at rows.old.rows instant) → 1 ≤ rows.old.begins }
    requires due { some_pass (λ f. is_due (standing_of f at.0)) (filed_at rows.old.rows instant) ≡ true }
    requires at { at.0 ≤ LAST_MOMENT }
    ensures whole { IsWhole rows.new wants.new }
    ensures number { IfSome (filed_at rows.old.rows instant) (λ f. result ≡ f.entry.used + 1) }
    ensures changes { Changes rows.old.rows rows.new.rows instant (with_begin at.0) (λ before. before ++ begun_attempt result at.0 epoch ∷ []) }
{
    match place_of(rows, instant) {
        Some(place) => {
            let number = rows.begin(place, epoch, at);
            renumber(rows, wants, place);
            number
        }
        None => unreachable!(),
    }
}

fn end_in(
    rows: &mut CountedLines,
    wants: &mut MinTree,
    instant: u64,
    number: u16,
    verdict: Verdict,
    status: u16,
    at: Moment,
)
    requires whole { IsWhole rows.old wants.old }
    requires at { at.0 ≤ LAST_MOMENT }
    ensures whole { IsWhole rows.new wants.new }
    ensures changes { Changes rows.old.rows rows.new.rows instant (with_end verdict at.0) (map (end_attempt number verdict status)) }
{
    if let Some(place) = place_of(rows, instant) {
        row::end(rows, place, number, verdict, status, at);
        renumber(rows, wants, place);
    }
}

fn close_in(rows: &mut CountedLines, wants: &mut MinTree, instant: u64, reason: Reason)
    requires { IsWhole rows.old wants.old }
    ensures whole { IsWhole rows.new wants.new }
    ensures changes { Changes rows.old.rows rows.new.rows instant (decided_as (outcome_of reason)) (λ before. before) }
{
    if let Some(place) = place_of(rows, instant) {
        row::close(rows, place, reason);
        renumber(rows, wants, place);
    }
}

fn lose_in(rows: &mut CountedLines, wants: &mut MinTree, instant: u64, at: Moment)
    requires whole { IsWhole rows.old wants.old }
    requires at { at.0 ≤ LAST_MOMENT }
    ensures whole { IsWhole rows.new wants.new }
    ensures changes { Changes rows.old.rows rows.new.rows instant (with_loss at.0) (map lose_attempt) }
{
    if let Some(place) = place_of(rows, instant) {
        row::lose(rows, place, at);
        renumber(rows, wants, place);
    }
}

fn cancel_in(rows: &mut CountedLines, wants: &mut MinTree)
    requires { IsWhole rows.old wants.old }
    ensures whole { IsWhole rows.new wants.new }
    ensures rows { rows.new ≡ record rows.old { rows = map cancelled_row rows.old.rows } }
{
    let mut from = 0;
    while let Some(place) = first_from(rows, wants, from, IN_AIR) {
        row::cancel(rows, place);
        renumber(rows, wants, place);
        from = place + 1;
    }
}

fn enter_in(rows: &mut CountedLines, wants: &mut MinTree, policy: Policy, pairs: &[Pair])
    requires whole { IsWhole rows.old wants.old }
    requires room { length pairs.now ≤ rows.old.room }
    requires entrance { IsEntrance (pairs_of rows.old.rows) pairs.now }
    ensures whole { IsWhole rows.new wants.new }
    ensures rows { rows.new.rows ≡ rows.old.rows ++ map (new_row policy) pairs.now }
{
    rows.enter(policy, pairs);
    fill_last(rows, wants);
    number_more(rows, wants);
}

/// The first entry, by its instant, whose chosen moment has come and that is exhausted or due.
fn first_due_in(rows: &CountedLines, wants: &MinTree, now: u64) -> Option<u64>
    requires { IsWhole rows.now wants.now }
    ensures first { IsFirstIn (λ k. answers (Question.ToAct now) (filed_at rows.now.rows k)) result }
    ensures none { IfNone result (bound_at now < lane_number rows.now.rows) }
{
    match first_from(rows, wants, 0, bound_at(now)) {
        Some(place) => Some(rows.instant(place)),
        None => None,
    }
}

fn final_instant(rows: &CountedLines) -> Option<u64>
    ensures { result ≡ last (instants_of (pairs_of rows.now.rows)) }
{
    match rows.len() {
        0 => None,
        count => Some(rows.instant(count - 1)),
    }
}

fn undecided_in(rows: &CountedLines, wants: &MinTree) -> u64
    requires { IsWhole rows.now wants.now }
    ensures { result ≡ open_in rows.now.rows }
{
    let mut count = 0;
    let mut from = 0;
    while let Some(place) = first_from(rows, wants, from, IN_AIR) {
        count += 1;
        from = place + 1;
    }
    count
}

fn tally_in(rows: &CountedLines) -> Tally
    requires { IsLane rows.now.rows }
    ensures value { result ≡ tally_of (standings_looked 0 rows.now.rows) }
    ensures few { length (pairs_of rows.now.rows) ≤ MOST_ENTRIES }
    ensures small { IsUpTo MOST_ENTRIES result }
{
    let _few = rows.len();
    rows.tally()
}

fn open_counts_in(rows: &CountedLines, wants: &MinTree, now: Moment) -> OpenCounts
    requires { IsWhole rows.now wants.now }
    ensures value { result ≡ open_counts (standings_looked now.0 rows.now.rows) }
    ensures few { AreUpTo MOST_ENTRIES result }
{
    let _few = rows.len();
    let mut counts = no_counts();
    let mut from = 0;
    while let Some(place) = first_from(rows, wants, from, IN_AIR) {
        counts = with_standing(counts, stands(&rows.filed(place), now));
        from = place + 1;
    }
    counts
}

fn stands(filed: &Filed, now: Moment) -> Standing
    requires { IsSmallFiled filed.now }
    ensures { result ≡ standing_of filed.now now.0 }
{
    standing(&filed.entry, filed.policy, now)
}

/// Whether these pairs may be entered behind entries.
fn may_follow(rows: &CountedLines, pairs: &[Pair]) -> bool
    requires { IsRising rows.now.rows }
    ensures says { result ≡ true → IsEntrance (pairs_of rows.now.rows) pairs.now }
    ensures all { IsEntrance (pairs_of rows.now.rows) pairs.now → result ≡ true }
{
    let mut last = last_instant(rows);
    for pair in pairs {
        if !is_next(last, *pair) {
            return false;
        }
        last = Some(pair.instant);
    }
    true
}

fn last_instant(rows: &CountedLines) -> Option<u64>
    requires { IsRising rows.now.rows }
    ensures top { IsTop (instants_in rows.now.rows) result }
    ensures next { (p : ℕ) → IsBehind rows.now.rows p → IsAbove result p }
{
    match rows.len() {
        0 => None,
        count => Some(rows.instant(count - 1)),
    }
}

fn is_next(last: Option<u64>, pair: Pair) -> bool
    ensures says { result ≡ true → (IsAbove last pair.instant × (pair.chosen ≤ LAST_CHOSEN)) }
    ensures all { IsAbove last pair.instant → pair.chosen ≤ LAST_CHOSEN → result ≡ true }
{
    if pair.chosen > LAST_CHOSEN {
        return false;
    }
    match last {
        Some(last) => last < pair.instant,
        None => true,
    }
}
