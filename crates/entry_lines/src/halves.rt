//! A number of 64 bits in two halves.
ghost use Rattle.std.specs.Prelude.{◌≡◌};

use std::marker::Model;

/// How many numbers a half has.
const HALF: u64 = 1 << 32;

/// A number in two halves, so that what holds it needs no place of eight bytes.
#[derive(Drop)]
pub struct Halves {
    high: u32,
    low: u32,
}

impl Model for Halves {
    ghost use Rattle.std.specs.Prelude.{ℕ, ◌+◌, ◌*◌};

    ghost Value = { ℕ };

    ghost view = { λ h. h.high * 4294967296 + h.low };
}

impl Halves {
    pub fn new(number: u64) -> Halves
        ensures { result ≡ number }
    {
        Halves {
            high: (number / HALF) as u32,
            low: (number % HALF) as u32,
        }
    }

    pub fn get(&self) -> u64
        ensures { result ≡ self.now }
    {
        self.high as u64 * HALF + self.low as u64
    }
}
