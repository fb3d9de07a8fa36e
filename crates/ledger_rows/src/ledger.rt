//! The ledger as its callers see it.
ghost use Rattle.std.specs.Prelude.{◌≡◌, ℕ, ◌+◌, ◌-◌, ◌≤◌, ◌<◌, ◌&&◌, true, Some, None, IfNone, IsSome, List, [], ◌∷◌, ◌++◌, map, length, vec_len, vec_capacity, IfSome, OnOk};
ghost use Rattle.plain_words.specs.Lists.{last, some_pass, numbers};
ghost use Rattle.std.specs.Option.{option_map};
ghost use Rattle.sched_plain.specs.Ledger.{LedgerCall, Entered, Begun, Finished, Closed, Cancelled, Lost};
ghost use Rattle.sched_plain.specs.Attempts.{begun_attempt, end_attempt, lose_attempt, is_live_attempt, is_live_last, attempts};
ghost use Rattle.sched_plain.specs.Entries.{with_begin, with_end, with_loss, decided_as, outcome_of, is_lost_in, entries, filed, instants_of, undecided};
ghost use Rattle.ledger_rows.specs.Rows.{open_in, IsEntrance, IsSmallFiled};
ghost use Rattle.entry_lines.specs.Rows.{LaneRows};
ghost use Rattle.ledger_rows.specs.Air.{but_for, flight_of, is_of, is_flown, outside, live_in, airborne};
ghost use Rattle.ledger_rows.specs.State.{filed_in, pairs_in, attempts_in, lane_of, is_closable, ChangesIn, Tells, RowsAre, same_rows, rows_entered, rows_cancelled, lane_standings, Loses};
ghost use Rattle.ledger_rows.specs.Shelves.{AreShelved};
ghost use Rattle.ledger_rows.specs.Numbers.{bound_at, lane_number};
ghost use Rattle.ledger_rows.specs.Wanting.{answers, IsFirstIn, IsFirstOf};
ghost use Rattle.sched_plain.specs.Standing.{standing_of};
ghost use Rattle.sched_plain.specs.declared.entry.Filed.{Filed as TheFiled};
ghost use Rattle.sched_plain.specs.Report.{is_due};
ghost use Rattle.std.specs.List.{flat_map};
ghost use Rattle.ledger_rows.specs.Counting.{IsWithin, entry_counts, counted};
ghost use Rattle.ledger_rows.specs.Tallying.{AreTallied, AreUpTo, AreFew, IsUpTo, all_in, in_shard, open_counts, tally_of};

use crate::counts::EntryCounts;
use crate::lane::{Lane, attempts_of, filed_of};
use crate::open_entries::{OpenCounts, counts_by, no_counts, together};
use crate::question::Question;
use crate::row::Flight;
use crate::shelves::{first_place, note, place_from, plant, put_place, reserve_place};
use crate::tally::{Tally, none, replace};
use crate::waiting::first_live_of;
use crate::wants::{IN_AIR, bound_at};
use entry_lines::MOST_ENTRIES;
use min_tree::MinTree;
use policy_rules::standing;
use sched_plain::{
    Attempt, Entry, Filed, LAST_MOMENT, Last, Moment, Pair, Pairs, Policy, Reason, SHARDS,
    Standing, Verdict, shard_of,
};
use std::alloc::{AllocError, Global};
use std::marker::Model;

/// The entries of all occurrences, with their policies and attempts.
#[derive(Drop)]
pub struct Ledger {
    /// The entries of each incarnation, at its number.
    lanes: Vec<Lane>,
    /// The least number of each incarnation's entries, a tree for each shard.
    shelves: Vec<MinTree>,
    /// The attempts in the air, in the order of their begins.
    flights: Vec<Flight>,
    /// How many of all entries are decided.
    tally: Tally,
}

impl Model for Ledger {
    ghost use Rattle.std.specs.Prelude.{◌-◌, ◌≤◌, length, vec_len, vec_capacity};
    ghost use Rattle.ledger_rows.specs.State.{State, AreFlown, AreLast};
    ghost use Rattle.ledger_rows.specs.Shelves.{AreShelved};
    ghost use Rattle.ledger_rows.specs.Tallying.{AreTallied};

    ghost Value = { State };

    ghost view = { λ l. record { lanes = l.lanes.items; flights = l.flights.items; room = vec_capacity l.flights - vec_len l.flights } };

    ghost invariant = { λ l. (length l.lanes.items ≤ 4294967296) × AreShelved l.lanes.items l.shelves.items × AreFlown l.lanes.items l.flights.items × AreLast l.lanes.items × AreTallied l.lanes.items l.tally };
}

impl Ledger {
    ghost use Rattle.ledger_rows.specs.State.{State, Stands, IsSame, HasBeginRoom, HasEnterRoom};

    /// The ledger of no calls; it takes no memory.
    pub fn new(alloc: Global) -> Ledger
        ensures { Stands result [] }
    {
        Ledger {
            lanes: Vec::new(alloc),
            shelves: Vec::new(alloc),
            flights: Vec::new(alloc),
            tally: none(),
        }
    }

    /// Makes room for so many more entries of an incarnation. Where memory is wanted the ledger is as before.
    pub fn reserve_enter(&mut self, inc: u32, count: u16) -> Result<(), AllocError>
        ensures same { IsSame self.old self.new }
        ensures stands { (calls : List LedgerCall) → Stands self.old calls → Stands self.new calls }
        ensures room { OnOk result (HasEnterRoom self.new inc count) }
    {
        reserve_in(&mut self.lanes, &mut self.shelves, inc, count)
    }

    /// The occurrences of these pairs have entries with this policy. It uses up room for so many.
    pub fn enter(&mut self, inc: u32, policy: Policy, pairs: &Pairs)
        requires room { HasEnterRoom self.old inc (length pairs.now) }
        requires entrance { IsEntrance (pairs_in self.old.lanes inc) pairs.now }
        ensures stands { (calls : List LedgerCall) → Stands self.old calls → Stands self.new (Entered inc policy pairs.now ∷ calls) }
        ensures flights { self.new.flights ≡ self.old.flights }
    {
        let before = tally_in(&self.lanes, inc);
        let shelves = &mut self.shelves;
        enter_in(&mut self.lanes, shelves, inc, policy, pairs.as_slice());
        replace(&mut self.tally, before, tally_in(&self.lanes, inc));
    }

    /// Makes room for one more attempt of an occurrence, and for its end. Where memory is wanted, or the occurrence has no
    /// entry, the ledger is as before.
    pub fn reserve_begin(&mut self, inc: u32, instant: u64) -> Result<(), AllocError>
        ensures same { IsSame self.old self.new }
        ensures stands { (calls : List LedgerCall) → Stands self.old calls → Stands self.new calls }
        ensures room { OnOk result (HasBeginRoom self.new inc instant) }
    {
        self.flights.reserve(1)?;
        room_in(&mut self.lanes, inc)
    }

    /// The next attempt of an occurrence begins at a moment, with the epoch of the one who sends it; its number, from 1, is
    /// answered. It uses up the room.
    pub fn begin(&mut self, inc: u32, instant: u64, epoch: u64, at: Moment) -> u16
        requires room { HasBeginRoom self.old inc instant }
        requires due { some_pass (λ f. is_due (standing_of f at.0)) (filed_in self.old.lanes inc instant) ≡ true }
        requires at { at.0 ≤ LAST_MOMENT }
        ensures number { IfSome (filed_in self.old.lanes inc instant) (λ f. result ≡ f.entry.used + 1) }
        ensures stands { (calls : List LedgerCall) → Stands self.old calls → Stands self.new (Begun inc instant result epoch at.0 ∷ calls) }
        ensures flights { self.new.flights ≡ self.old.flights ++ flight_of inc instant result ∷ [] }
    {
        let shelves = &mut self.shelves;
        let number = begin_in(&mut self.lanes, shelves, inc, instant, epoch, at);
        put_last(
            &mut self.flights,
            Flight {
                inc,
                instant,
                number,
            },
        );
        number
    }

    /// An attempt in the air ends with a verdict and a status, 0 where no reply could be read.
    pub fn end(
        &mut self,
        inc: u32,
        instant: u64,
        number: u16,
        verdict: Verdict,
        status: u16,
        at: Moment,
    )
        requires live { is_live_attempt (filed_in self.old.lanes inc instant) number ≡ true }
        requires at { at.0 ≤ LAST_MOMENT }
        ensures stands { (calls : List LedgerCall) → Stands self.old calls → Stands self.new (Finished inc instant number verdict status at.0 ∷ calls) }
        ensures flights { self.new.flights ≡ but_for inc instant self.old.flights }
    {
        let before = tally_in(&self.lanes, inc);
        let shelves = &mut self.shelves;
        end_in(
            &mut self.lanes,
            shelves,
            inc,
            instant,
            number,
            verdict,
            status,
            at,
        );
        replace(&mut self.tally, before, tally_in(&self.lanes, inc));
        land(&mut self.flights, inc, instant);
    }

    /// An entry that is open, and has no attempt in the air, is given up.
    pub fn close(&mut self, inc: u32, instant: u64, reason: Reason)
        requires { some_pass is_closable (filed_in self.old.lanes inc instant) ≡ true }
        ensures stands { (calls : List LedgerCall) → Stands self.old calls → Stands self.new (Closed inc instant reason ∷ calls) }
        ensures flights { self.new.flights ≡ self.old.flights }
    {
        let before = tally_in(&self.lanes, inc);
        close_in(&mut self.lanes, &mut self.shelves, inc, instant, reason);
        replace(&mut self.tally, before, tally_in(&self.lanes, inc));
    }

    /// The entries of an incarnation that are not decided are cancelled; an attempt in the air stays there.
    pub fn cancel(&mut self, inc: u32)
        ensures stands { (calls : List LedgerCall) → Stands self.old calls → Stands self.new (Cancelled inc ∷ calls) }
        ensures flights { self.new.flights ≡ self.old.flights }
    {
        let before = tally_in(&self.lanes, inc);
        cancel_in(&mut self.lanes, &mut self.shelves, inc);
        replace(&mut self.tally, before, tally_in(&self.lanes, inc));
    }

    /// The attempts in the air are lost at a moment: those of a shard, or all where none is named.
    pub fn lose(&mut self, shard: Option<u8>, at: Moment)
        requires { at.0 ≤ LAST_MOMENT }
        ensures stands { (calls : List LedgerCall) → Stands self.old calls → Stands self.new (Lost shard at.0 ∷ calls) }
        ensures air { self.new.flights ≡ outside shard self.old.flights }
    {
        let shelves = &mut self.shelves;
        lose_in(&mut self.lanes, shelves, &self.flights, shard, at);
        drop_lost(&mut self.flights, shard);
    }

    /// What is filed for an occurrence: its entry, and the policy under which it was entered.
    pub fn filed(&self, inc: u32, instant: u64) -> Option<Filed>
        ensures seen { result ≡ filed_in self.now.lanes inc instant }
        ensures stands { (calls : List LedgerCall) → Stands self.now calls → result ≡ filed calls inc instant }
    {
        filed_of(&self.lanes, inc, instant)
    }

    /// Whether the next attempt of an occurrence may begin at a moment: its entry is due.
    pub fn is_due(&self, inc: u32, instant: u64, at: Moment) -> bool
        ensures { result ≡ some_pass (λ f. is_due (standing_of f at.0)) (filed_in self.now.lanes inc instant) }
    {
        match filed_of(&self.lanes, inc, instant) {
            Some(filed) => is_due(&filed, at),
            None => false,
        }
    }

    /// Where the entry of an occurrence stands at a moment; None where it has none.
    pub fn standing(&self, inc: u32, instant: u64, at: Moment) -> Option<Standing>
        ensures { result ≡ option_map {T = TheFiled} (λ f. standing_of f at.0) (filed_in self.now.lanes inc instant) }
    {
        match filed_of(&self.lanes, inc, instant) {
            Some(filed) => Some(standing(&filed.entry, filed.policy, at)),
            None => None,
        }
    }

    /// Whether the attempt of this number of an occurrence is in the air.
    pub fn is_live(&self, inc: u32, instant: u64, number: u16) -> bool
        ensures { result ≡ is_live_attempt (filed_in self.now.lanes inc instant) number }
    {
        match filed_of(&self.lanes, inc, instant) {
            Some(filed) => filed.entry.used == number && is_live(filed.entry.last),
            None => false,
        }
    }

    /// Whether an occurrence has an entry that may be given up: not decided, and with no attempt in the air.
    pub fn is_closable(&self, inc: u32, instant: u64) -> bool
        ensures { result ≡ some_pass is_closable (filed_in self.now.lanes inc instant) }
    {
        match filed_of(&self.lanes, inc, instant) {
            Some(filed) => filed.entry.outcome.is_none() && !is_live(filed.entry.last),
            None => false,
        }
    }

    /// Whether these pairs may be entered: they come behind the entries of the incarnation, they rise, and are chosen at
    /// moments that a window can choose.
    pub fn may_enter(&self, inc: u32, pairs: &Pairs) -> bool
        ensures says { result ≡ true → IsEntrance (pairs_in self.now.lanes inc) pairs.now }
        ensures all { IsEntrance (pairs_in self.now.lanes inc) pairs.now → result ≡ true }
    {
        may_enter_in(&self.lanes, inc, pairs.as_slice())
    }

    /// The entry of an occurrence.
    pub fn entry(&self, inc: u32, instant: u64) -> Option<Entry>
        ensures { (calls : List LedgerCall) → Stands self.now calls → result ≡ option_map {T = TheFiled} (λ f. f.entry) (filed calls inc instant) }
    {
        match filed_of(&self.lanes, inc, instant) {
            Some(filed) => Some(filed.entry),
            None => None,
        }
    }

    /// The attempts of an occurrence, in order; none where it has no entry.
    pub fn attempts(&self, inc: u32, instant: u64) -> &[Attempt]
        ensures { (calls : List LedgerCall) → Stands self.now calls → result.now ≡ attempts calls inc instant }
    {
        attempts_of(&self.lanes, inc, instant)
    }

    /// The first occurrence of a shard, by incarnation and instant, whose chosen moment has come and whose entry is
    /// exhausted or due.
    pub fn first_due(&self, shard: u8, now: Moment) -> Option<(u32, u64)>
        requires { shard < SHARDS }
        ensures { (calls : List LedgerCall) → Stands self.now calls → IsFirstOf (λ i k. answers (Question.ToAct now.0) (filed calls i k)) shard result }
    {
        first_due_of(&self.lanes, &self.shelves, shard, now.0)
    }

    /// The first occurrence of a shard, by incarnation and instant, whose entry is live.
    pub fn first_live(&self, shard: u8) -> Option<(u32, u64)>
        requires { shard < SHARDS }
        ensures { (calls : List LedgerCall) → Stands self.now calls → IsFirstOf (λ i k. answers Question.ToWait (filed calls i k)) shard result }
    {
        first_live_of(&self.lanes, &self.flights, shard)
    }

    /// How many attempts are in the air, of a shard where one is named. That of a cancelled entry is one.
    pub fn live(&self, shard: Option<u8>) -> u64
        ensures { (calls : List LedgerCall) → Stands self.now calls → result ≡ live_in shard (airborne calls) }
    {
        count_in(&self.flights, shard)
    }

    /// The instant of the last entry of an incarnation.
    pub fn last_entered(&self, inc: u32) -> Option<u64>
        ensures { (calls : List LedgerCall) → Stands self.now calls → result ≡ last (instants_of (entries calls inc)) }
    {
        last_of(&self.lanes, inc)
    }

    /// How many entries of an incarnation are not decided.
    pub fn undecided(&self, inc: u32) -> u64
        ensures { (calls : List LedgerCall) → Stands self.now calls → result ≡ undecided calls inc }
    {
        open_of(&self.lanes, inc)
    }

    /// How many entries there are, and how many of them stand where at a moment.
    pub fn counts(&self, now: Moment) -> EntryCounts
        ensures { (calls : List LedgerCall) (created : ℕ) → Stands self.now calls → IsWithin calls created → result ≡ entry_counts calls created now.0 }
    {
        counts_of(&self.lanes, &self.shelves, self.tally, now)
    }
}

/// The numbers of all entries: the tally of the decided ones, and the others, which are looked up.
fn counts_of(lanes: &[Lane], shelves: &[MinTree], tally: Tally, now: Moment) -> EntryCounts
    requires few { length lanes.now ≤ 4294967296 }
    requires shelved { AreShelved lanes.now shelves.now }
    requires tallied { AreTallied lanes.now tally }
    ensures { result ≡ counted (flat_map (lane_standings lanes.now now.0) (numbers 0 (length lanes.now))) }
{
    counts_by(tally, open_counts_of(lanes, shelves, now))
}

/// How the entries that are not decided stand at a moment.
fn open_counts_of(lanes: &[Lane], shelves: &[MinTree], now: Moment) -> OpenCounts
    requires few { length lanes.now ≤ 4294967296 }
    requires shelved { AreShelved lanes.now shelves.now }
    requires entries { AreFew lanes.now }
    ensures { result ≡ open_counts (all_in lanes.now now.0) }
{
    let mut counts = no_counts();
    for shard in 0..SHARDS {
        counts = together(counts, open_counts_in(lanes, shelves, shard, now));
    }
    counts
}

/// The same of the entries of a shard: of the incarnations that have one that is not decided.
fn open_counts_in(lanes: &[Lane], shelves: &[MinTree], shard: u8, now: Moment) -> OpenCounts
    requires few { length lanes.now ≤ 4294967296 }
    requires shelved { AreShelved lanes.now shelves.now }
    requires entries { AreFew lanes.now }
    requires shard { shard < SHARDS }
    ensures { result ≡ open_counts (in_shard lanes.now shard now.0) }
{
    let mut counts = no_counts();
    let mut from = 0;
    while let Some(place) = place_from(shelves, shard, from, IN_AIR) {
        let lane = &lanes[place * SHARDS as usize + shard as usize];
        counts = together(counts, lane.open_counts(now));
        from = place + 1;
    }
    counts
}

/// How many entries of an incarnation are decided.
fn tally_in(lanes: &[Lane], inc: u32) -> Tally
    ensures value { result ≡ tally_of (lane_standings lanes.now 0 inc) }
    ensures few { length (pairs_in lanes.now inc) ≤ MOST_ENTRIES }
    ensures small { IsUpTo MOST_ENTRIES result }
{
    if inc as usize >= lanes.len() {
        return none();
    }
    let lane = &lanes[inc as usize];
    lane.tally()
}

fn last_of(lanes: &[Lane], inc: u32) -> Option<u64>
    ensures { result ≡ last (instants_of (pairs_in lanes.now inc)) }
{
    if inc as usize >= lanes.len() {
        return None;
    }
    let lane = &lanes[inc as usize];
    lane.last_instant()
}

fn open_of(lanes: &[Lane], inc: u32) -> u64
    ensures { result ≡ open_in (lane_of lanes.now inc).rows }
{
    if inc as usize >= lanes.len() {
        return 0;
    }
    let lane = &lanes[inc as usize];
    lane.undecided()
}

fn reserve_in(
    lanes: &mut Vec<Lane>,
    shelves: &mut Vec<MinTree>,
    inc: u32,
    count: u16,
) -> Result<(), AllocError>
    requires few { length lanes.old.items ≤ 4294967296 }
    requires shelved { AreShelved lanes.old.items shelves.old.items }
    ensures shelved { AreShelved lanes.new.items shelves.new.items }
    ensures few { length lanes.new.items ≤ 4294967296 }
    ensures rows { RowsAre lanes.old.items lanes.new.items same_rows }
    ensures room { OnOk result ((inc < length lanes.new.items) × (count ≤ (lane_of lanes.new.items inc).room)) }
{
    widen(lanes, shelves, inc)?;
    let lane = &mut lanes[inc as usize];
    lane.reserve(count as usize)
}

/// Makes a lane for each incarnation up to this one.
fn widen(lanes: &mut Vec<Lane>, shelves: &mut Vec<MinTree>, inc: u32) -> Result<(), AllocError>
    requires few { length lanes.old.items ≤ 4294967296 }
    requires shelved { AreShelved lanes.old.items shelves.old.items }
    ensures shelved { AreShelved lanes.new.items shelves.new.items }
    ensures few { length lanes.new.items ≤ 4294967296 }
    ensures rows { RowsAre lanes.old.items lanes.new.items same_rows }
    ensures wide { OnOk result (inc < length lanes.new.items) }
{
    let alloc: Global = *lanes.allocator();
    plant(shelves, alloc)?;
    while lanes.len() <= inc as usize {
        add_lane(lanes, shelves, alloc)?;
    }
    Ok(())
}

/// Makes a lane more, with its place on the shelf of its shard.
fn add_lane(
    lanes: &mut Vec<Lane>,
    shelves: &mut Vec<MinTree>,
    alloc: Global,
) -> Result<(), AllocError>
    requires wide { SHARDS ≤ length shelves.old.items }
    requires shelved { AreShelved lanes.old.items shelves.old.items }
    ensures shelved { AreShelved lanes.new.items shelves.new.items }
    ensures wide { SHARDS ≤ length shelves.new.items }
    ensures rows { RowsAre lanes.old.items lanes.new.items same_rows }
    ensures few { length lanes.new.items ≤ length lanes.old.items + 1 }
    ensures more { OnOk result (length lanes.new.items ≡ length lanes.old.items + 1) }
{
    let shard = lanes.len() % SHARDS as usize;
    reserve_place(shelves, shard)?;
    lanes.push(Lane::new(alloc))?;
    put_place(shelves, shard);
    Ok(())
}

fn enter_in(
    lanes: &mut Vec<Lane>,
    shelves: &mut Vec<MinTree>,
    inc: u32,
    policy: Policy,
    pairs: &[Pair],
)
    requires shelved { AreShelved lanes.old.items shelves.old.items }
    requires there { inc < length lanes.old.items }
    requires room { length pairs.now ≤ (lane_of lanes.old.items inc).room }
    requires entrance { IsEntrance (pairs_in lanes.old.items inc) pairs.now }
    ensures shelved { AreShelved lanes.new.items shelves.new.items }
    ensures length { length lanes.new.items ≡ length lanes.old.items }
    ensures rows { RowsAre lanes.old.items lanes.new.items (rows_entered inc policy pairs.now) }
{
    let lane = &mut lanes[inc as usize];
    lane.enter(policy, pairs);
    note(shelves, inc, lane.least());
}

fn cancel_in(lanes: &mut Vec<Lane>, shelves: &mut Vec<MinTree>, inc: u32)
    requires shelved { AreShelved lanes.old.items shelves.old.items }
    ensures shelved { AreShelved lanes.new.items shelves.new.items }
    ensures length { length lanes.new.items ≡ length lanes.old.items }
    ensures rows { RowsAre lanes.old.items lanes.new.items (rows_cancelled inc) }
{
    if (inc as usize) < lanes.len() {
        let lane = &mut lanes[inc as usize];
        lane.cancel();
        note(shelves, inc, lane.least());
    }
}

/// The attempts of these flights are lost: those of a shard, or all where none is named.
fn lose_in(
    lanes: &mut Vec<Lane>,
    shelves: &mut Vec<MinTree>,
    flights: &[Flight],
    shard: Option<u8>,
    at: Moment,
)
    requires shelved { AreShelved lanes.old.items shelves.old.items }
    requires at { at.0 ≤ LAST_MOMENT }
    ensures shelved { AreShelved lanes.new.items shelves.new.items }
    ensures length { length lanes.new.items ≡ length lanes.old.items }
    ensures loses { Loses lanes.old.items lanes.new.items (λ i k. is_lost_in shard i && is_flown flights.now i k) at.0 }
{
    for flight in flights {
        lose_flight(lanes, shelves, *flight, shard, at);
    }
}

/// The attempt of a flight is lost, where it is of the shard or none is named.
fn lose_flight(
    lanes: &mut Vec<Lane>,
    shelves: &mut Vec<MinTree>,
    flight: Flight,
    shard: Option<u8>,
    at: Moment,
)
    requires shelved { AreShelved lanes.old.items shelves.old.items }
    requires at { at.0 ≤ LAST_MOMENT }
    ensures shelved { AreShelved lanes.new.items shelves.new.items }
    ensures length { length lanes.new.items ≡ length lanes.old.items }
    ensures loses { Loses lanes.old.items lanes.new.items (λ i k. is_lost_in shard i && is_of i k flight) at.0 }
{
    if is_lost_in(shard, flight.inc) {
        lose_at(lanes, shelves, flight.inc, flight.instant, at);
    }
}

/// The attempt of an occurrence is lost, where it is live.
fn lose_at(lanes: &mut Vec<Lane>, shelves: &mut Vec<MinTree>, inc: u32, instant: u64, at: Moment)
    requires shelved { AreShelved lanes.old.items shelves.old.items }
    requires at { at.0 ≤ LAST_MOMENT }
    ensures shelved { AreShelved lanes.new.items shelves.new.items }
    ensures length { length lanes.new.items ≡ length lanes.old.items }
    ensures changes { ChangesIn lanes.old.items lanes.new.items inc instant (with_loss at.0) (map lose_attempt) }
{
    if (inc as usize) < lanes.len() {
        let lane = &mut lanes[inc as usize];
        lane.lose(instant, at);
        note(shelves, inc, lane.least());
    }
}

/// Whether an incarnation is of the shard, or none is named.
fn is_lost_in(shard: Option<u8>, inc: u32) -> bool
    ensures { result ≡ is_lost_in shard inc }
{
    match shard {
        Some(shard) => shard_of(inc) == shard,
        None => true,
    }
}

/// Takes the attempts of a shard out, or all where none is named.
fn drop_lost(flights: &mut Vec<Flight>, shard: Option<u8>)
    ensures { flights.new.items ≡ outside shard flights.old.items }
{
    flights.retain(|flight| !is_lost_in(shard, flight.inc));
}

fn count_in(flights: &[Flight], shard: Option<u8>) -> u64
    ensures { result ≡ live_in shard flights.now }
{
    let mut count = 0;
    for flight in flights {
        if is_lost_in(shard, flight.inc) {
            count += 1;
        }
    }
    count
}

fn is_due(filed: &Filed, at: Moment) -> bool
    requires { IsSmallFiled filed.now }
    ensures { result ≡ is_due (standing_of filed.now at.0) }
{
    match standing(&filed.entry, filed.policy, at) {
        Standing::Due => true,
        _ => false,
    }
}

fn is_live(last: Last) -> bool
    ensures { result ≡ is_live_last last }
{
    match last {
        Last::Live { .. } => true,
        _ => false,
    }
}

fn may_enter_in(lanes: &Vec<Lane>, inc: u32, pairs: &[Pair]) -> bool
    ensures says { result ≡ true → IsEntrance (pairs_in lanes.now.items inc) pairs.now }
    ensures all { IsEntrance (pairs_in lanes.now.items inc) pairs.now → result ≡ true }
{
    if inc as usize >= lanes.len() {
        let alloc: Global = *lanes.allocator();
        return Lane::new(alloc).may_enter(pairs);
    }
    let lane = &lanes[inc as usize];
    lane.may_enter(pairs)
}

/// Makes room for an attempt of an occurrence, where that has an entry.
fn room_in(lanes: &mut Vec<Lane>, inc: u32) -> Result<(), AllocError>
    ensures rows { RowsAre lanes.old.items lanes.new.items same_rows }
    ensures length { length lanes.new.items ≡ length lanes.old.items }
    ensures room { OnOk result (inc < length lanes.new.items → 1 ≤ (lane_of lanes.new.items inc).begins) }
{
    if inc as usize >= lanes.len() {
        return Ok(());
    }
    let lane = &mut lanes[inc as usize];
    lane.reserve_begin()
}

/// The first occurrence of a shard whose chosen moment has come and whose entry is exhausted or due.
fn first_due_of(lanes: &[Lane], shelves: &[MinTree], shard: u8, now: u64) -> Option<(u32, u64)>
    requires few { length lanes.now ≤ 4294967296 }
    requires shelved { AreShelved lanes.now shelves.now }
    requires shard { shard < SHARDS }
    ensures { IsFirstOf (λ i k. answers (Question.ToAct now) (filed_in lanes.now i k)) shard result }
{
    match first_place(shelves, shard, bound_at(now)) {
        Some(place) => Some(due_in(lanes, place * SHARDS as usize + shard as usize, now)),
        None => None,
    }
}

/// The first entry that something is to be done for, of an incarnation whose number is reached.
fn due_in(lanes: &[Lane], inc: usize, now: u64) -> (u32, u64)
    requires few { length lanes.now ≤ 4294967296 }
    requires there { inc < length lanes.now }
    requires reached { lane_number (lane_of lanes.now inc).rows ≤ bound_at now }
    ensures inc { result.0 ≡ inc }
    ensures first { IsFirstIn (λ k. answers (Question.ToAct now) (filed_in lanes.now inc k)) (Some result.1) }
{
    let lane = &lanes[inc];
    match lane.first_due(now) {
        Some(instant) => (inc as u32, instant),
        None => unreachable!(),
    }
}

fn begin_in(
    lanes: &mut Vec<Lane>,
    shelves: &mut Vec<MinTree>,
    inc: u32,
    instant: u64,
    epoch: u64,
    at: Moment,
) -> u16
    requires shelved { AreShelved lanes.old.items shelves.old.items }
    requires room { IsSome (filed_in lanes.old.items inc instant) → 1 ≤ (lane_of lanes.old.items inc).begins }
    requires due { some_pass (λ f. is_due (standing_of f at.0)) (filed_in lanes.old.items inc instant) ≡ true }
    requires at { at.0 ≤ LAST_MOMENT }
    ensures shelved { AreShelved lanes.new.items shelves.new.items }
    ensures length { length lanes.new.items ≡ length lanes.old.items }
    ensures number { IfSome (filed_in lanes.old.items inc instant) (λ f. result ≡ f.entry.used + 1) }
    ensures changes { ChangesIn lanes.old.items lanes.new.items inc instant (with_begin at.0) (λ before. before ++ begun_attempt result at.0 epoch ∷ []) }
{
    let lane = &mut lanes[inc as usize];
    let number = lane.begin(instant, epoch, at);
    note(shelves, inc, lane.least());
    number
}

fn end_in(
    lanes: &mut Vec<Lane>,
    shelves: &mut Vec<MinTree>,
    inc: u32,
    instant: u64,
    number: u16,
    verdict: Verdict,
    status: u16,
    at: Moment,
)
    requires shelved { AreShelved lanes.old.items shelves.old.items }
    requires at { at.0 ≤ LAST_MOMENT }
    ensures shelved { AreShelved lanes.new.items shelves.new.items }
    ensures length { length lanes.new.items ≡ length lanes.old.items }
    ensures changes { ChangesIn lanes.old.items lanes.new.items inc instant (with_end verdict at.0) (map (end_attempt number verdict status)) }
{
    if (inc as usize) < lanes.len() {
        let lane = &mut lanes[inc as usize];
        lane.end(instant, number, verdict, status, at);
        note(shelves, inc, lane.least());
    }
}

fn close_in(
    lanes: &mut Vec<Lane>,
    shelves: &mut Vec<MinTree>,
    inc: u32,
    instant: u64,
    reason: Reason,
)
    requires shelved { AreShelved lanes.old.items shelves.old.items }
    ensures shelved { AreShelved lanes.new.items shelves.new.items }
    ensures length { length lanes.new.items ≡ length lanes.old.items }
    ensures changes { ChangesIn lanes.old.items lanes.new.items inc instant (decided_as (outcome_of reason)) (λ before. before) }
{
    if (inc as usize) < lanes.len() {
        let lane = &mut lanes[inc as usize];
        lane.close(instant, reason);
        note(shelves, inc, lane.least());
    }
}

/// Adds an attempt, where there is room for it.
fn put_last(flights: &mut Vec<Flight>, flight: Flight)
    requires { vec_len flights.old < vec_capacity flights.old }
    ensures flights { flights.new.items ≡ flights.old.items ++ flight ∷ [] }
    ensures room { vec_capacity flights.old - vec_len flights.old ≤ vec_capacity flights.new - vec_len flights.new + 1 }
{
    let _ = flights.push(flight);
}

/// Takes the attempt of an occurrence out.
fn land(flights: &mut Vec<Flight>, inc: u32, instant: u64)
    ensures { flights.new.items ≡ but_for inc instant flights.old.items }
{
    flights.retain(|flight| !is_of(*flight, inc, instant));
}

fn is_of(flight: Flight, inc: u32, instant: u64) -> bool
    ensures { result ≡ is_of inc instant flight }
{
    inc == flight.inc && instant == flight.instant
}
