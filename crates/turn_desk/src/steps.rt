//! The steps of a turn, one after another.
ghost use Rattle.std.specs.Prelude.{◌≡◌, ◌≢◌, ◌+◌, ◌<◌, ◌≤◌, ◌^◌, [], ◌∷◌, length, Some, None, MatchBool};
ghost use Rattle.turn_desk.specs.declared.known.View.TheVariants.{Free, Beside, Took, Told, Returned};
ghost use Rattle.turn_desk.specs.Knowing.{GoesOn, MayLeave, AreOfOne, after_turn, together};
ghost use Rattle.turn_desk.specs.Turns.{reading, knowledge, other};
ghost use Rattle.turn_desk.specs.Seats.{IsSized, IsFree, IsWaiting, IsCalled, IsInTurn, IsTold, IsReturned, IsSameSeat, known, found_by, ticket_of};

use crate::known::View;
use crate::law::{Law, Place};
use crate::pause::Pause;
use crate::plays::{Compare, Draw, Look, Pass, Return, Take, Tally};
use crate::recorded::Recorded;
use atomic_table::Shared;
use std::snapshot::Snapshot;
use std::sync::Wait;

pub(crate) type Top<T> = Shared<Option<T>, View<<T as Recorded>::Entry>, Snapshot<T>, Law<T>>;

/// A ticket of this number or above is never drawn.
const NO_TICKET: u64 = 1 << 62;

// The place of the next ticket, of the ticket that is served, and of the length of the list.
pub(crate) const NEXT: usize = 0;

pub(crate) const SERVED: usize = 1;

const TALLY: usize = 2;

fn try_draw<T: Recorded>(top: &Top<T>, place: &mut Place<T>, next: u64) -> bool
    requires table { (place.old.table_id ≡ top.now.table_id) × IsSized top.now.table_id }
    requires free { IsFree place.old }
    requires room { next < 2 ^ 62 }
    ensures seat { IsSameSeat place.old place.new }
    ensures drawn { MatchBool result (IsWaiting place.new (known place.old) next) (place.new.me ≡ place.old.me) }
{
    top.compare_exchange::<Draw>(place, NEXT, next, next + 1) == next
}

/// Draws the next ticket.
pub(crate) fn draw<T: Recorded, R: Wait>(rt: &R, top: &Top<T>, place: &mut Place<T>) -> u64
    requires table { (place.old.table_id ≡ top.now.table_id) × IsSized top.now.table_id }
    requires free { IsFree place.old }
    ensures seat { IsSameSeat place.old place.new }
    ensures waits { IsWaiting place.new (known place.old) result }
{
    let mut pause = Pause::new();
    for _ in rt.forever() {
        let next = top.peek(NEXT);
        if next < NO_TICKET && try_draw(top, place, next) {
            return next;
        }
        pause.rest(rt, top, 0);
    }
    unreachable!()
}

fn look<T: Recorded>(top: &Top<T>, place: &mut Place<T>, ticket: u64) -> u64
    requires table { (place.old.table_id ≡ top.now.table_id) × IsSized top.now.table_id }
    requires waits { IsWaiting place.old (known place.old) ticket }
    ensures seat { IsSameSeat place.old place.new }
    ensures called { result ≡ ticket → IsCalled place.new (known place.old) ticket }
    ensures other { result ≢ ticket → place.new.me ≡ place.old.me }
{
    top.load::<Look>(place, SERVED)
}

/// Waits for the turn of the ticket.
pub(crate) fn await_turn<T: Recorded, R: Wait>(
    rt: &R,
    top: &Top<T>,
    place: &mut Place<T>,
    ticket: u64,
)
    requires table { (place.old.table_id ≡ top.now.table_id) × IsSized top.now.table_id }
    requires waits { IsWaiting place.old (known place.old) ticket }
    ensures seat { IsSameSeat place.old place.new }
    ensures called { IsCalled place.new (known place.old) ticket }
{
    let mut pause = Pause::new();
    for _ in rt.forever() {
        let served = look(top, place, ticket);
        if served == ticket {
            return;
        }
        pause.rest(rt, top, (served % (1 << 32)) as u32);
    }
    unreachable!()
}

/// The value, out of the slot.
pub(crate) fn take_out<T: Recorded>(top: &Top<T>, place: &mut Place<T>) -> T
    requires table { (place.old.table_id ≡ top.now.table_id) × IsSized top.now.table_id }
    requires called { IsCalled place.old (known place.old) (ticket_of place.old) }
    ensures seat { IsSameSeat place.old place.new }
    ensures value { GoesOn (known place.old) (T.entries result) (T.gauge result) }
    ensures turn { IsInTurn place.new (known place.old) (reading T.entries T.gauge result) }
{
    top.load::<Take>(place, SERVED);
    top.exchange(place, 0, None).unwrap()
}

/// Puts the value into the seat's hand and tells the length of its list.
pub(crate) fn tally<T: Recorded>(top: &Top<T>, place: &mut Place<T>, value: T)
    requires table { (place.old.table_id ≡ top.now.table_id) × IsSized top.now.table_id }
    requires turn { IsInTurn place.old (known place.old) (found_by place.old) }
    requires value { MayLeave (known place.old) (found_by place.old) (T.entries value) (T.gauge value) }
    ensures seat { IsSameSeat place.old place.new }
    ensures told { IsTold T.entries T.gauge place.new (after_turn (known place.old) (found_by place.old) (T.entries value) (T.gauge value)) }
{
    let count = value.count();
    let before = top.exchange(place, 0, Some(value));
    let None = before else { unreachable!() };
    top.store::<Tally>(place, TALLY, count);
}

/// Puts the value back into the slot.
pub(crate) fn give_back<T: Recorded>(top: &Top<T>, place: &mut Place<T>)
    requires table { (place.old.table_id ≡ top.now.table_id) × IsSized top.now.table_id }
    requires told { IsTold T.entries T.gauge place.old (known place.old) }
    ensures seat { IsSameSeat place.old place.new }
    ensures returned { IsReturned place.new (known place.old) }
{
    top.load::<Return>(place, SERVED);
}

/// Lets the next ticket be served.
pub(crate) fn pass<T: Recorded>(top: &Top<T>, place: &mut Place<T>)
    requires table { (place.old.table_id ≡ top.now.table_id) × IsSized top.now.table_id }
    requires returned { IsReturned place.old (known place.old) }
    ensures seat { IsSameSeat place.old place.new }
    ensures free { place.new.me ≡ (Free (known place.old), []) }
{
    let served = top.fetch_add::<Pass>(place, SERVED, 1);
    wake(top, served);
}

// Wakes those who wait behind the ticket that was served.
fn wake<T: Recorded>(top: &Top<T>, served: u64)
    requires { IsSized top.now.table_id }
{
    if top.peek(NEXT) != served.wrapping_add(1) {
        top.wake_all(SERVED);
    }
}

/// Makes one of what two seats knew.
pub(crate) fn compare<T: Recorded>(top: &Top<T>, place: &mut Place<T>)
    requires table { (place.old.table_id ≡ top.now.table_id) × IsSized top.now.table_id }
    requires beside { place.old.me ≡ (Beside (known place.old) (other place.old.me.0), []) }
    ensures seat { IsSameSeat place.old place.new }
    ensures one { AreOfOne (known place.old) (other place.old.me.0) }
    ensures free { place.new.me ≡ (Free (together (known place.old) (other place.old.me.0)), []) }
{
    top.load::<Compare>(place, SERVED);
}
