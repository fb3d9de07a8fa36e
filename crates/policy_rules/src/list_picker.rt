ghost use Rattle.std.specs.Prelude.{◌≡◌, ◌+◌, ◌-◌, ◌^◌, min, [], ◌∷◌};
ghost use Rattle.policy_rules.specs.Given.{Gives, told_values, word_at};

use crate::picker::Picker;
use plain_words::TryCopy;
use std::alloc::{AllocError, Global};
use std::marker::Model;

/// A picker in memory that gives the words of a list, and 0 behind its end. It tells what it gave, until it has given
/// 2^64 - 1 words.
#[derive(Debug, Drop)]
pub struct ListPicker {
    words: Vec<u64>,
    given: u64,
}

impl Model for ListPicker {
    ghost use Rattle.policy_rules.specs.Given.{Script};

    ghost Value = { Script };

    ghost view = { λ p. record { values = p.words.items; given = p.given } };
}

impl ListPicker {
    /// Gives these words, the first one first.
    pub fn new(words: Vec<u64>) -> ListPicker
        ensures { result ≡ record { values = words.items; given = 0 } }
    {
        ListPicker { words, given: 0 }
    }

    /// How many words were given; the count stays at the greatest u64.
    pub fn given(&self) -> u64
        ensures { result ≡ self.now.given }
    {
        self.given
    }
}

/// The word at a place, from 0.
fn word_at(words: &[u64], place: u64) -> u64
    ensures { result ≡ word_at words.now place }
{
    words.get(place as usize).copied().unwrap_or(0)
}

impl Picker for ListPicker {
    ghost told = { λ p. told_values (word_at p.values) p.given };

    fn word(&mut self) -> u64
        ensures told { Gives (told_values (word_at self.old.values) self.old.given) (result ∷ []) (told_values (word_at self.new.values) self.new.given) }
        ensures word { result ≡ word_at self.old.values self.old.given }
        ensures values { self.new.values ≡ self.old.values }
        ensures given { self.new.given ≡ min (self.old.given + 1) (2 ^ 64 - 1) }
    {
        let word = word_at(self.words.as_slice(), self.given);
        self.given = self.given.saturating_add(1);
        word
    }
}

impl TryCopy for ListPicker {
    fn copy(&self) -> Result<ListPicker, AllocError> {
        let alloc: Global = *self.words.allocator();
        Ok(ListPicker {
            words: Vec::from_slice(alloc, self.words.as_slice())?,
            given: self.given,
        })
    }
}
