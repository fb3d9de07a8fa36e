//! What a thread does at the desk.
ghost use Rattle.std.specs.Prelude.{◌≡◌};
ghost use Rattle.turn_desk.specs.Seats.{IsFree};

use std::sync::Wait;
use std::thread;
use std::time::{Clock, Duration};
use turn_desk::{Desk, Recorded, Seat};

/// A number for each turn that was had.
#[derive(Drop)]
pub struct Log {
    pub turns: Vec<u64>,
}

impl Recorded for Log {
    ghost use Rattle.turn_desk.specs.declared.known.Gauge.{Gauge};

    type Entry = u64;

    ghost entries = { λ log. log.turns.items };

    ghost gauge = { λ _. record { faults = 0; limit = 0; moment = 0 } };

    fn count(&self) -> u64 {
        self.turns.len() as u64
    }
}

/// How many turns a thread has, and for how many milliseconds it keeps each.
#[derive(Clone, Copy)]
pub struct Work {
    pub turns: u64,
    pub millis: u64,
}

fn write<R: Wait + Clock>(rt: &R, desk: &Desk<Log>, seat: &mut Seat<Log>, millis: u64)
    requires desk { seat.old.place.table_id ≡ desk.now.table.shared.table_id }
    requires free { IsFree seat.old.place }
    ensures desk { seat.new.place.table_id ≡ desk.now.table.shared.table_id }
    ensures free { IsFree seat.new.place }
{
    let mut turn = desk.enter(rt, seat);
    let _ = turn.value.turns.push(millis);
    if millis > 0 {
        thread::sleep(rt, Duration::from_millis(millis));
    }
    desk.leave(turn, seat);
}

/// All turns of one thread.
pub fn write_often<R: Wait + Clock>(
    rt: &R,
    desk: &Desk<Log>,
    mut seat: Seat<Log>,
    work: Work,
) -> Seat<Log>
    requires desk { seat.place.table_id ≡ desk.now.table.shared.table_id }
    requires free { IsFree seat.place }
    ensures desk { result.place.table_id ≡ desk.now.table.shared.table_id }
    ensures free { IsFree result.place }
{
    for _ in 0..work.turns {
        write(rt, desk, &mut seat, work.millis);
    }
    seat
}
