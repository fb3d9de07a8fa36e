//! The desk, its seats and their turns.
ghost use Rattle.std.specs.Prelude.{◌≡◌, [], ◌∷◌, Some, IfOk, IfErr};
ghost use Rattle.turn_desk.specs.Knowing.{GoesOn, MayLeave, AreOfOne, knows_value, newcomer, together, after_turn};
ghost use Rattle.turn_desk.specs.Turns.{reading};
ghost use Rattle.turn_desk.specs.Seats.{IsSized, IsFree, IsInTurn, known, found_by};

use crate::law::{Board, Place};
use crate::plays::{Fork, Gather};
use crate::recorded::Recorded;
use crate::steps::{await_turn, compare, draw, give_back, pass, take_out, tally};
use atomic_table::{Refused, Table};
use std::alloc::{AllocError, AllocFailed, Global};
use std::snapshot::Snapshot;
use std::sync::Wait;

/// A value that threads take turns at. It may lie behind a `&` or in an `Arc`, and each thread steps with a seat of it.
pub struct Desk<T: Recorded> {
    table: Board<T>,
    ghost sized: { IsSized table.shared.table_id },
}

/// The right to take turns at a desk, one after another, and what they showed. It has no bytes.
///
/// A seat that is dropped in the midst of a turn leaves its desk without the value: those who wait there wait for ever.
pub struct Seat<T: Recorded> {
    place: Place<T>,
}

/// A turn at a desk, with the value in hand. It is spent by `Desk::leave` or by `Turn::keep`.
pub struct Turn<T> {
    /// The value, to work on.
    pub value: T,
    seal: (),
}

impl<T: Recorded> Drop for Seat<T> {
    fn drop(self) {
        let Self { place } = self;
        drop(place);
    }
}

impl<T: Recorded + Drop> Drop for Desk<T> {
    fn drop(self) {
        let Self { table } = self;
        drop(table);
    }
}

impl<T> Turn<T> {
    /// Keeps the value for good. A later `enter` at its desk waits for ever.
    pub fn keep(self) -> T
        ensures { result ≡ self.value }
    {
        let Turn { value, seal: _ } = self;
        value
    }
}

// The slots of a table that has the value.
fn one_slot<T>(alloc: Global, value: T) -> Result<Vec<Option<T>>, (AllocError, T)>
    ensures ok { IfOk result (λ slots. slots.items ≡ Some value ∷ []) }
    ensures err { IfErr result (λ e. e.1 ≡ value) }
{
    let mut slots = Vec::new(alloc);
    match slots.push(Some(value)) {
        Ok(()) => Ok(slots),
        Err(AllocFailed { value }) => {
            slots.destroy_empty();
            Err((AllocError, value.unwrap()))
        }
    }
}

// The value, out of the slots of a table that was not made.
fn only<T>(mut slots: Vec<Option<T>>) -> T
    requires { (value : T) × (slots.items ≡ Some value ∷ []) }
    ensures { slots.items ≡ Some result ∷ [] }
{
    let value = slots.pop().unwrap().unwrap();
    slots.destroy_empty();
    value
}

impl<T: Recorded> Desk<T> {
    /// A desk with this value, and its first seat. Where memory is wanted the value comes back.
    pub fn new(alloc: Global, value: T) -> Result<(Desk<T>, Seat<T>), (AllocError, T)>
        ensures seat { IfOk result (λ d. (d.1.place.table_id ≡ d.0.table.shared.table_id) × IsFree d.1.place) }
        ensures known { IfOk result (λ d. known d.1.place ≡ knows_value (T.entries value) (T.gauge value)) }
        ensures err { IfErr result (λ e. e.1 ≡ value) }
    {
        let count = value.count();
        let about = Snapshot::of(&value);
        let slots = one_slot(alloc, value)?;
        match Table::new(alloc, &[0, 0, count], slots, &about) {
            Ok((table, place)) => Ok((Desk { table }, Seat { place })),
            Err(Refused { slots }) => Err((AllocError, only(slots))),
        }
    }

    /// Waits for a turn, which comes in the order in which turns were asked for, and hands the value out.
    ///
    /// The 2^62nd turn of a desk never comes.
    pub fn enter<R: Wait>(&self, rt: &R, seat: &mut Seat<T>) -> Turn<T>
        requires desk { seat.old.place.table_id ≡ self.now.table.shared.table_id }
        requires free { IsFree seat.old.place }
        ensures desk { seat.new.place.table_id ≡ self.now.table.shared.table_id }
        ensures value { GoesOn (known seat.old.place) (T.entries result.value) (T.gauge result.value) }
        ensures turn { IsInTurn seat.new.place (known seat.old.place) (reading T.entries T.gauge result.value) }
    {
        let top = &self.table.shared;
        let ticket = draw(rt, top, &mut seat.place);
        await_turn(rt, top, &mut seat.place, ticket);
        let value = take_out(top, &mut seat.place);
        Turn { value, seal: () }
    }

    /// Gives the value back and lets the next one in.
    ///
    /// The value has to go on from what the turn found. From then on the seat knows it whole, and has the entries that
    /// were added for its own, each with its place.
    pub fn leave(&self, turn: Turn<T>, seat: &mut Seat<T>)
        requires desk { seat.old.place.table_id ≡ self.now.table.shared.table_id }
        requires turn { IsInTurn seat.old.place (known seat.old.place) (found_by seat.old.place) }
        requires value { MayLeave (known seat.old.place) (found_by seat.old.place) (T.entries turn.value) (T.gauge turn.value) }
        ensures desk { seat.new.place.table_id ≡ self.now.table.shared.table_id }
        ensures free { IsFree seat.new.place }
        ensures known { known seat.new.place ≡ after_turn (known seat.old.place) (found_by seat.old.place) (T.entries turn.value) (T.gauge turn.value) }
    {
        let top = &self.table.shared;
        tally(top, &mut seat.place, turn.keep());
        give_back(top, &mut seat.place);
        pass(top, &mut seat.place);
    }

    /// Two seats of one: both know as much, and the first alone has the turns and entries of its own.
    pub fn split(&self, seat: Seat<T>) -> (Seat<T>, Seat<T>)
        requires desk { seat.place.table_id ≡ self.now.table.shared.table_id }
        requires free { IsFree seat.place }
        ensures desk { (result.0.place.table_id ≡ self.now.table.shared.table_id) × (result.1.place.table_id ≡ self.now.table.shared.table_id) }
        ensures free { IsFree result.0.place × IsFree result.1.place }
        ensures first { known result.0.place ≡ known seat.place }
        ensures second { known result.1.place ≡ newcomer (known seat.place) }
    {
        let mut place = seat.into_place();
        let split_off = self.table.shared.split_seat::<Fork>(&mut place);
        (Seat { place }, Seat { place: split_off })
    }

    /// One seat of two, which knows what both knew. What they saw were beginnings of one list, and no entry was of both.
    pub fn join(&self, first: Seat<T>, second: Seat<T>) -> Seat<T>
        requires desk { (first.place.table_id ≡ self.now.table.shared.table_id) × (second.place.table_id ≡ self.now.table.shared.table_id) }
        requires free { IsFree first.place × IsFree second.place }
        ensures desk { result.place.table_id ≡ self.now.table.shared.table_id }
        ensures free { IsFree result.place }
        ensures one { AreOfOne (known first.place) (known second.place) }
        ensures known { known result.place ≡ together (known first.place) (known second.place) }
    {
        let mut place = first.into_place();
        let top = &self.table.shared;
        top.join_seat::<Gather>(&mut place, second.into_place());
        compare(top, &mut place);
        Seat { place }
    }
}

impl<T: Recorded> Seat<T> {
    fn into_place(self) -> Place<T>
        ensures { result ≡ self.place }
    {
        let Seat { place } = self;
        place
    }
}
