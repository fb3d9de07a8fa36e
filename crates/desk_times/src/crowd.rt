//! Two, four and eight threads at one desk.
ghost use Rattle.std.specs.Prelude.{◌≡◌};
ghost use Rattle.turn_desk.specs.Seats.{IsFree};

use crate::turns::{Log, Work, write_often};
use std::sync::Wait;
use std::thread;
use std::thread::Threads;
use std::time::Clock;
use turn_desk::{Desk, Seat};

/// Two threads, each with this work.
pub fn two<R: Threads + Wait + Clock + Sync>(
    rt: &R,
    desk: &Desk<Log>,
    seat: Seat<Log>,
    work: Work,
) -> Seat<Log>
    requires desk { seat.place.table_id ≡ desk.now.table.shared.table_id }
    requires free { IsFree seat.place }
    ensures desk { result.place.table_id ≡ desk.now.table.shared.table_id }
    ensures free { IsFree result.place }
{
    let (first, second) = desk.split(seat);
    let (first, second) = thread::join(
        rt,
        move ||
            requires { (first.place.table_id ≡ desk.now.table.shared.table_id) × IsFree first.place }
            ensures { (result.place.table_id ≡ desk.entry.now.table.shared.table_id) × IsFree result.place }
        { write_often(rt, desk, first, work) },
        move ||
            requires { (second.place.table_id ≡ desk.now.table.shared.table_id) × IsFree second.place }
            ensures { (result.place.table_id ≡ desk.entry.now.table.shared.table_id) × IsFree result.place }
        { write_often(rt, desk, second, work) },
    );
    desk.join(first, second)
}

/// Four of them.
pub fn four<R: Threads + Wait + Clock + Sync>(
    rt: &R,
    desk: &Desk<Log>,
    seat: Seat<Log>,
    work: Work,
) -> Seat<Log>
    requires desk { seat.place.table_id ≡ desk.now.table.shared.table_id }
    requires free { IsFree seat.place }
    ensures desk { result.place.table_id ≡ desk.now.table.shared.table_id }
    ensures free { IsFree result.place }
{
    let (first, second) = desk.split(seat);
    let (first, second) = thread::join(
        rt,
        move ||
            requires { (first.place.table_id ≡ desk.now.table.shared.table_id) × IsFree first.place }
            ensures { (result.place.table_id ≡ desk.entry.now.table.shared.table_id) × IsFree result.place }
        { two(rt, desk, first, work) },
        move ||
            requires { (second.place.table_id ≡ desk.now.table.shared.table_id) × IsFree second.place }
            ensures { (result.place.table_id ≡ desk.entry.now.table.shared.table_id) × IsFree result.place }
        { two(rt, desk, second, work) },
    );
    desk.join(first, second)
}

/// Eight of them.
pub fn eight<R: Threads + Wait + Clock + Sync>(
    rt: &R,
    desk: &Desk<Log>,
    seat: Seat<Log>,
    work: Work,
) -> Seat<Log>
    requires desk { seat.place.table_id ≡ desk.now.table.shared.table_id }
    requires free { IsFree seat.place }
    ensures desk { result.place.table_id ≡ desk.now.table.shared.table_id }
    ensures free { IsFree result.place }
{
    let (first, second) = desk.split(seat);
    let (first, second) = thread::join(
        rt,
        move ||
            requires { (first.place.table_id ≡ desk.now.table.shared.table_id) × IsFree first.place }
            ensures { (result.place.table_id ≡ desk.entry.now.table.shared.table_id) × IsFree result.place }
        { four(rt, desk, first, work) },
        move ||
            requires { (second.place.table_id ≡ desk.now.table.shared.table_id) × IsFree second.place }
            ensures { (result.place.table_id ≡ desk.entry.now.table.shared.table_id) × IsFree result.place }
        { four(rt, desk, second, work) },
    );
    desk.join(first, second)
}
