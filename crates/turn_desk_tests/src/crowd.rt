//! Two, four and eight threads at one desk. What each of them does is written under a name of its own.
ghost use Rattle.std.specs.Prelude.{◌≡◌, ◌<◌};
ghost use Rattle.turn_desk.specs.Seats.{IsFree};

use crate::log::{Log, write_often};
use std::sync::Wait;
use std::thread;
use std::thread::Threads;
use turn_desk::{Desk, Seat};

/// Two names from `name` on; the seats are joined in the other order.
pub fn two<R: Threads + Wait + Sync>(
    rt: &R,
    desk: &Desk<Log>,
    seat: Seat<Log>,
    name: u64,
    turns: u64,
) -> Seat<Log>
    requires desk { seat.place.table_id ≡ desk.now.table.shared.table_id }
    requires free { IsFree seat.place }
    requires name { name < 1000 }
    ensures desk { result.place.table_id ≡ desk.now.table.shared.table_id }
    ensures free { IsFree result.place }
{
    let (first, second) = desk.split(seat);
    let (first, second) = thread::join(
        rt,
        move ||
            requires { (first.place.table_id ≡ desk.now.table.shared.table_id) × IsFree first.place × (name < 1000) }
            ensures { (result.place.table_id ≡ desk.entry.now.table.shared.table_id) × IsFree result.place }
        { write_often(rt, desk, first, name, turns) },
        move ||
            requires { (second.place.table_id ≡ desk.now.table.shared.table_id) × IsFree second.place × (name < 1000) }
            ensures { (result.place.table_id ≡ desk.entry.now.table.shared.table_id) × IsFree result.place }
        { write_often(rt, desk, second, name + 1, turns) },
    );
    desk.join(second, first)
}

/// Four names from `name` on.
pub fn four<R: Threads + Wait + Sync>(
    rt: &R,
    desk: &Desk<Log>,
    seat: Seat<Log>,
    name: u64,
    turns: u64,
) -> Seat<Log>
    requires desk { seat.place.table_id ≡ desk.now.table.shared.table_id }
    requires free { IsFree seat.place }
    requires name { name < 900 }
    ensures desk { result.place.table_id ≡ desk.now.table.shared.table_id }
    ensures free { IsFree result.place }
{
    let (first, second) = desk.split(seat);
    let (first, second) = thread::join(
        rt,
        move ||
            requires { (first.place.table_id ≡ desk.now.table.shared.table_id) × IsFree first.place × (name < 900) }
            ensures { (result.place.table_id ≡ desk.entry.now.table.shared.table_id) × IsFree result.place }
        { two(rt, desk, first, name, turns) },
        move ||
            requires { (second.place.table_id ≡ desk.now.table.shared.table_id) × IsFree second.place × (name < 900) }
            ensures { (result.place.table_id ≡ desk.entry.now.table.shared.table_id) × IsFree result.place }
        { two(rt, desk, second, name + 2, turns) },
    );
    desk.join(first, second)
}

/// Eight names from `name` on.
pub fn eight<R: Threads + Wait + Sync>(
    rt: &R,
    desk: &Desk<Log>,
    seat: Seat<Log>,
    name: u64,
    turns: u64,
) -> Seat<Log>
    requires desk { seat.place.table_id ≡ desk.now.table.shared.table_id }
    requires free { IsFree seat.place }
    requires name { name < 800 }
    ensures desk { result.place.table_id ≡ desk.now.table.shared.table_id }
    ensures free { IsFree result.place }
{
    let (first, second) = desk.split(seat);
    let (first, second) = thread::join(
        rt,
        move ||
            requires { (first.place.table_id ≡ desk.now.table.shared.table_id) × IsFree first.place × (name < 800) }
            ensures { (result.place.table_id ≡ desk.entry.now.table.shared.table_id) × IsFree result.place }
        { four(rt, desk, first, name, turns) },
        move ||
            requires { (second.place.table_id ≡ desk.now.table.shared.table_id) × IsFree second.place × (name < 800) }
            ensures { (result.place.table_id ≡ desk.entry.now.table.shared.table_id) × IsFree result.place }
        { four(rt, desk, second, name + 4, turns) },
    );
    desk.join(second, first)
}
