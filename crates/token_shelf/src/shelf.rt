ghost use Rattle.std.specs.Prelude.{◌≡◌, ◌+◌, ◌≤◌, ◌++◌, List, [], None, Some, IsOk, OnOk};
ghost use Rattle.std.specs.Option.{option_map};
ghost use Rattle.sched_plain.specs.Tokens.{Kept, kept_under, kept_by};
ghost use Rattle.token_shelf.specs.Answers.{IsAnswer};
ghost use Rattle.token_shelf.specs.Shelves.{Keeps, shown};

use crate::answer::TokenAnswer;
use plain_words::Token;
use sched_plain::Write;
use sorted_blocks::SortedBlocks;
use std::alloc::{AllocError, Global};
use std::marker::Model;

/// A write that kept its token, with the place of its step, counted from 1.
#[derive(Drop)]
pub struct KeptWrite {
    pub write: Write,
    pub step: u64,
}

/// The tokens that were kept. Contracts see what was kept under each, and for how many more there is
/// room.
#[derive(Drop)]
pub struct Shelf {
    writes: SortedBlocks<KeptWrite>,
}

impl Model for Shelf {
    ghost use Rattle.token_shelf.specs.Shelves.{Shelved, kept_in};

    ghost Value = { Shelved };

    ghost view = { λ s. record { kept = kept_in s.writes.pairs; room = s.writes.room } };
}

impl Shelf {
    /// No token. Takes no memory.
    pub fn new(alloc: Global) -> Shelf
        ensures { Keeps result [] }
    {
        Shelf {
            writes: SortedBlocks::new(alloc),
        }
    }

    /// What is known of the token of a write. Takes no memory.
    pub fn look(&self, token: &Token, write: &Write) -> TokenAnswer
        ensures answer { IsAnswer result (kept_under self.now.kept token.now) write.now }
        ensures stands { (kept : List Kept) → Keeps self.now kept → IsAnswer result (kept_under kept token.now) write.now }
    {
        match self.writes.get(token) {
            None => TokenAnswer::New,
            Some(kept) => answer_of(token, kept, write),
        }
    }

    /// The place of the step that kept a token, counted from 1; None where no step did.
    pub fn place(&self, token: &Token) -> Option<u64>
        ensures place { result ≡ option_map {T = Kept} (λ k. k.place) (kept_under self.now.kept token.now) }
        ensures stands { (kept : List Kept) → Keeps self.now kept → result ≡ option_map {T = Kept} (λ k. k.place) (kept_under kept token.now) }
    {
        match self.writes.get(token) {
            Some(kept) => Some(kept.step),
            None => None,
        }
    }

    /// Makes room for one more token. Where memory is wanted nothing is changed.
    pub fn reserve(&mut self) -> Result<(), AllocError>
        ensures stands { (kept : List Kept) → Keeps self.old kept → Keeps self.new kept }
        ensures room { OnOk result (1 ≤ self.new.room) }
        ensures no_less { self.old.room ≤ self.new.room }
        ensures ready { 1 ≤ self.old.room → IsOk result }
    {
        self.writes.reserve()
    }

    /// Keeps a token that is new, with its write and the place of its step, counted from 1. Takes no
    /// memory, and uses up the room for one.
    pub fn keep(&mut self, token: Token, write: Write, step: u64)
        requires room { 1 ≤ self.old.room }
        requires new { kept_under self.old.kept token ≡ None }
        ensures stands { (kept : List Kept) → Keeps self.old kept → Keeps self.new (kept ++ kept_by (Some token) write step) }
        ensures room { self.old.room ≤ self.new.room + 1 }
    {
        self.writes.insert(token, KeptWrite { write, step });
    }
}

/// What is known of a token that was kept.
fn answer_of(token: &Token, kept: &KeptWrite, write: &Write) -> TokenAnswer
    ensures { IsAnswer result (Some (shown (token.now, kept.now))) write.now }
{
    if kept.write.is_same(write) {
        TokenAnswer::Same
    } else {
        TokenAnswer::Other { step: kept.step }
    }
}
