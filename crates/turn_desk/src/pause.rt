//! How a thread waits: it yields, and then sleeps for times that grow up to a bound.
ghost use Rattle.std.specs.Prelude.{◌≡◌};
ghost use Rattle.turn_desk.specs.Seats.{IsSized};

use crate::recorded::Recorded;
use crate::steps::{SERVED, Top};
use std::sync::Wait;
use std::thread;
use std::time::Duration;

const YIELDS: u32 = 8;

const FIRST_SLEEP_MICROS: u64 = 50;

const LONGEST_SLEEP_MICROS: u64 = 20_000;

pub(crate) struct Pause {
    yields: u32,
    micros: u64,
}

impl Drop for Pause {
    fn drop(self) {
        let Self {
            yields: _,
            micros: _,
        } = self;
    }
}

impl Pause {
    pub(crate) fn new() -> Pause {
        Pause {
            yields: YIELDS,
            micros: FIRST_SLEEP_MICROS,
        }
    }

    /// Rests until another ticket than this one is served, or for a while. `served` is the low half of its number.
    pub(crate) fn rest<T: Recorded, R: Wait>(&mut self, rt: &R, top: &Top<T>, served: u32)
        requires { IsSized top.now.table_id }
    {
        if self.yields > 0 {
            self.yields -= 1;
            thread::yield_now();
            return;
        }
        top.park_timeout(rt, SERVED, served, Duration::from_micros(self.micros));
        self.micros = self.micros.saturating_mul(2).min(LONGEST_SLEEP_MICROS);
    }
}
