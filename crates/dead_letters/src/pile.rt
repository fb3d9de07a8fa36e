ghost use Rattle.std.specs.Prelude.{◌≡◌, ◌+◌, ◌≤◌, ◌++◌, ◌∷◌, [], length, IsOk, OnOk};

use sched_plain::Letter;
use std::alloc::{AllocError, Global};
use std::marker::Model;

/// The letters of one queue. Contracts see them, in order, and how many more there is room for.
#[derive(Drop)]
pub struct Pile {
    letters: Vec<Letter>,
}

impl Model for Pile {
    ghost use Rattle.std.specs.Prelude.{◌-◌, vec_len, vec_capacity};
    ghost use Rattle.dead_letters.specs.Piles.{Piled};

    ghost Value = { Piled };

    ghost view = { λ p. record { letters = p.letters.items; room = vec_capacity p.letters - vec_len p.letters } };
}

impl Pile {
    /// No letter. Takes no memory.
    pub fn new(alloc: Global) -> Pile
        ensures { result.letters ≡ [] }
    {
        Pile {
            letters: Vec::new(alloc),
        }
    }

    /// The letters, in order.
    pub fn as_slice(&self) -> &[Letter]
        ensures { result.now ≡ self.now.letters }
    {
        self.letters.as_slice()
    }

    /// How many letters there are.
    pub fn len(&self) -> u64
        ensures { result ≡ length self.now.letters }
    {
        self.letters.len() as u64
    }

    /// How many more letters there is room for.
    pub fn room(&self) -> usize
        ensures { result ≡ self.now.room }
    {
        self.letters.capacity() - self.letters.len()
    }

    /// Makes room for so many more letters.
    pub fn reserve(&mut self, count: usize) -> Result<(), AllocError>
        ensures letters { self.new.letters ≡ self.old.letters }
        ensures kept { self.old.room ≤ self.new.room }
        ensures room { OnOk result (count ≤ self.new.room) }
    {
        self.letters.reserve(count)
    }

    /// Adds a letter at the end, without memory.
    pub fn push(&mut self, letter: Letter)
        requires { 1 ≤ self.old.room }
        ensures letters { self.new.letters ≡ self.old.letters ++ letter ∷ [] }
        ensures room { self.old.room ≤ self.new.room + 1 }
    {
        let _ = self.letters.push(letter);
    }
}
