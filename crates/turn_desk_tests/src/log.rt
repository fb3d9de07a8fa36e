//! A value for desks: the names of those who had a turn.
ghost use Rattle.std.specs.Prelude.{◌≡◌};
ghost use Rattle.turn_desk.specs.Seats.{IsFree};

use std::alloc::Global;
use std::sync::Wait;
use turn_desk::{Desk, Recorded, Seat};

#[derive(Drop)]
pub struct Log {
    pub names: Vec<u64>,
}

impl Log {
    pub fn new(alloc: Global) -> Log {
        Log {
            names: Vec::new(alloc),
        }
    }

    /// How many turns were written under this name.
    pub fn turns_of(&self, name: u64) -> usize {
        self.names.iter().filter(|n| **n == name).count()
    }
}

impl Recorded for Log {
    ghost use Rattle.turn_desk.specs.declared.known.Gauge.{Gauge};

    type Entry = u64;

    ghost entries = { λ log. log.names.items };

    ghost gauge = { λ _. record { faults = 0; limit = 0; moment = 0 } };

    fn count(&self) -> u64 {
        self.names.len() as u64
    }
}

/// One turn, in which the name is written. It is not where memory is wanted.
pub fn write<R: Wait>(rt: &R, desk: &Desk<Log>, seat: &mut Seat<Log>, name: u64)
    requires desk { seat.old.place.table_id ≡ desk.now.table.shared.table_id }
    requires free { IsFree seat.old.place }
    ensures desk { seat.new.place.table_id ≡ desk.now.table.shared.table_id }
    ensures free { IsFree seat.new.place }
{
    let mut turn = desk.enter(rt, seat);
    let _ = turn.value.names.push(name);
    desk.leave(turn, seat);
}

/// So many turns, one after another.
pub fn write_often<R: Wait>(
    rt: &R,
    desk: &Desk<Log>,
    mut seat: Seat<Log>,
    name: u64,
    turns: u64,
) -> Seat<Log>
    requires desk { seat.place.table_id ≡ desk.now.table.shared.table_id }
    requires free { IsFree seat.place }
    ensures desk { result.place.table_id ≡ desk.now.table.shared.table_id }
    ensures free { IsFree result.place }
{
    for _ in 0..turns {
        write(rt, desk, &mut seat, name);
    }
    seat
}
