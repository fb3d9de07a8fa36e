ghost use Rattle.std.specs.Prelude.{◌≡◌, ◌+◌, ◌-◌, ◌^◌, min, [], ◌∷◌};
ghost use Rattle.policy_rules.specs.Given.{Gives, told_values, reading_at};

use crate::clock::Clock;
use plain_words::TryCopy;
use std::alloc::{AllocError, Global};
use std::marker::Model;

/// A clock in memory that shows the moments of a list, and its last one again behind its end, or 0 where the list is
/// empty. It tells what it showed, until it has been read 2^64 - 1 times.
#[derive(Debug, Drop)]
pub struct ListClock {
    readings: Vec<u64>,
    given: u64,
}

impl Model for ListClock {
    ghost use Rattle.policy_rules.specs.Given.{Script};

    ghost Value = { Script };

    ghost view = { λ c. record { values = c.readings.items; given = c.given } };
}

impl ListClock {
    /// Shows these moments, in seconds since 1970 UTC, the first one first.
    pub fn new(readings: Vec<u64>) -> ListClock
        ensures { result ≡ record { values = readings.items; given = 0 } }
    {
        ListClock { readings, given: 0 }
    }

    /// How many times it was read; the count stays at the greatest u64.
    pub fn given(&self) -> u64
        ensures { result ≡ self.now.given }
    {
        self.given
    }
}

/// The reading at a place, from 0.
fn reading_at(readings: &[u64], place: u64) -> u64
    ensures { result ≡ reading_at readings.now place }
{
    if let Some(reading) = readings.get(place as usize) {
        return *reading;
    }
    readings.last().copied().unwrap_or(0)
}

impl Clock for ListClock {
    ghost told = { λ c. told_values (reading_at c.values) c.given };

    fn moment(&mut self) -> u64
        ensures told { Gives (told_values (reading_at self.old.values) self.old.given) (result ∷ []) (told_values (reading_at self.new.values) self.new.given) }
        ensures reading { result ≡ reading_at self.old.values self.old.given }
        ensures values { self.new.values ≡ self.old.values }
        ensures given { self.new.given ≡ min (self.old.given + 1) (2 ^ 64 - 1) }
    {
        let reading = reading_at(self.readings.as_slice(), self.given);
        self.given = self.given.saturating_add(1);
        reading
    }
}

impl TryCopy for ListClock {
    fn copy(&self) -> Result<ListClock, AllocError> {
        let alloc: Global = *self.readings.allocator();
        Ok(ListClock {
            readings: Vec::from_slice(alloc, self.readings.as_slice())?,
            given: self.given,
        })
    }
}
