ghost use Rattle.std.specs.Prelude.{◌≡◌, ℕ, ◌+◌, ◌≤◌, ◌<◌, ◌-◌, ◌^◌, ◌++◌, ◌∷◌, min, List, [], IsOk, IfOk, OnOk, length, take, drop, if◌then◌else◌};
ghost use Rattle.plain_words.specs.Lists.{same_text};
ghost use Rattle.sched_plain.specs.Queues.{Posted};
ghost use Rattle.dead_letters.specs.Piles.{letters_in, room_in};
ghost use Rattle.dead_letters.specs.Posts.{Holds, post};

use crate::page::page_of;
use crate::pile::Pile;
use crate::piles::{count_of, make_room, push_to, room_for};
use sched_plain::{Letter, Letters, Text};
use std::alloc::{AllocError, Global};
use std::collections::BTreeMap;
use std::marker::Model;

/// The dead letters of all queues. Contracts see each queue's letters, and how many more of them
/// there is room for.
#[derive(Drop)]
pub struct DeadLetters {
    alloc: Global,
    piles: BTreeMap<String, Pile>,
}

impl Model for DeadLetters {
    ghost use Rattle.dead_letters.specs.Piles.{Piles};
    ghost use Rattle.dead_letters.specs.Shown.{piles_of};

    ghost Value = { Piles };

    ghost view = { λ d. piles_of d.piles.entries };
}

impl DeadLetters {
    /// No letter in any queue. Takes no memory.
    pub fn new(alloc: Global) -> DeadLetters
        ensures { (queue : List ℕ) → letters_in result queue ≡ [] }
    {
        DeadLetters {
            alloc,
            piles: BTreeMap::new(alloc),
        }
    }

    /// The letters of a queue behind the first `after`, at most `max` of them, in order. Their numbers in the queue, from
    /// `after + 1` on, fit.
    pub fn letters(&self, queue: &Text, after: u64, max: u8) -> Result<Letters, AllocError>
        ensures page { IfOk result (λ page. page ≡ take max (drop after (letters_in self.now queue.now))) }
        ensures numbers { IfOk result (λ page. after + length page < 2 ^ 64) }
    {
        match self.piles.get(queue.as_str()) {
            Some(pile) => page_of(self.alloc, pile.as_slice(), after, max),
            None => Ok(Letters::new(self.alloc)),
        }
    }

    /// How many letters all queues have: the greatest number where there are more. It looks at each queue
    /// once, and at no letter.
    pub fn count(&self) -> u64
        ensures { (posted : List Posted) → Holds self.now posted → result ≡ min (length posted) (2 ^ 64 - 1) }
    {
        count_of(&self.piles)
    }

    /// Makes room for so many more letters of a queue. Where memory is wanted no letter and no room is
    /// lost.
    pub fn reserve(&mut self, queue: &Text, count: u64) -> Result<(), AllocError>
        ensures letters { (q : List ℕ) → letters_in self.new q ≡ letters_in self.old q }
        ensures stands { (posted : List Posted) → Holds self.old posted → Holds self.new posted }
        ensures kept { (q : List ℕ) → room_in self.old q ≤ room_in self.new q }
        ensures room { OnOk result (count ≤ room_in self.new queue.now) }
        ensures ready { count ≤ room_in self.old queue.now → IsOk result }
    {
        if count <= room_for(&self.piles, queue) {
            return Ok(());
        }
        make_room(self.alloc, &mut self.piles, queue, count as usize)
    }

    /// Adds a letter at the end of a queue. Takes no memory, and uses up the room for one.
    pub fn add(&mut self, queue: &Text, letter: Letter)
        requires { 1 ≤ room_in self.old queue.now }
        ensures letters { (q : List ℕ) → letters_in self.new q ≡ (if same_text queue.now q then letters_in self.old q ++ letter ∷ [] else letters_in self.old q) }
        ensures stands { (posted : List Posted) → Holds self.old posted → Holds self.new (posted ++ post queue.now letter ∷ []) }
        ensures room { (q : List ℕ) → room_in self.old q ≤ room_in self.new q + (if same_text queue.now q then 1 else 0) }
    {
        push_to(&mut self.piles, queue, letter);
    }
}
