ghost use Rattle.std.specs.Prelude.{◌≡◌, ◌+◌, ◌-◌, ◌^◌, ◌≤◌, ◌↔◌, min, Contains, IsTrue, if◌then◌else◌};

use std::marker::Model;

/// Which calls of a device in memory are to fail, counted from 1, and how many were made and failed so far. Both counts
/// stay at the greatest u64.
#[derive(Drop)]
pub struct FailingCalls {
    numbers: Vec<u64>,
    calls: u64,
    faults: u64,
}

impl Model for FailingCalls {
    ghost use Rattle.outside.specs.Failing.{Failing};

    ghost Value = { Failing };

    ghost view = { λ f. record { numbers = f.numbers.items; calls = f.calls; faults = f.faults } };
}

impl FailingCalls {
    /// No call was made so far; those with these numbers are to fail.
    pub fn new(numbers: Vec<u64>) -> Self
        ensures { result ≡ record { numbers = numbers.items; calls = 0; faults = 0 } }
    {
        FailingCalls {
            numbers,
            calls: 0,
            faults: 0,
        }
    }

    /// Counts one more call, and says whether it is to fail; where it is, counts a fault too.
    pub fn fails_next(&mut self) -> bool
        ensures listed { IsTrue result ↔ Contains self.old.numbers self.new.calls }
        ensures numbers { self.new.numbers ≡ self.old.numbers }
        ensures calls { self.new.calls ≡ min (self.old.calls + 1) (2 ^ 64 - 1) }
        ensures faults { self.new.faults
            ≡ (if result then min (self.old.faults + 1) (2 ^ 64 - 1) else self.old.faults) }
        ensures later { self.old.faults ≤ self.new.faults }
    {
        self.calls = self.calls.saturating_add(1);
        let fails = self.numbers.contains(&self.calls);
        if fails {
            self.count_fault();
        }
        fails
    }

    /// How many calls failed.
    pub fn faults(&self) -> u64
        ensures { result ≡ self.now.faults }
    {
        self.faults
    }

    /// Counts a fault.
    pub fn count_fault(&mut self)
        ensures value { self.new ≡ record self.old { faults = min (self.old.faults + 1) (2 ^ 64 - 1) } }
        ensures later { self.old.faults ≤ self.new.faults }
    {
        self.faults = self.faults.saturating_add(1);
    }
}
