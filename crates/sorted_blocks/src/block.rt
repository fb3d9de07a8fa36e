ghost use Rattle.std.specs.Prelude.{◌≡◌, ℕ, OnErr, ◌+◌, ◌/◌, ◌<◌, ◌∷◌, [], None, Some, IfOk, IfSome, IfNone, OnOk, length, take, drop};
ghost use Rattle.std.specs.List.{insert};
ghost use Rattle.sorted_blocks.specs.Pairs.{value_under};
ghost use Rattle.sorted_blocks.specs.Order.{IsRising, IsGap, starts_behind};

use crate::search::{order_of, place_of};
use plain_words::Token;
use std::alloc::{AllocError, Global};
use std::cmp::Ordering;
use std::marker::Model;

/// The most pairs of one block.
pub const PER_BLOCK: usize = 128;
/// How many pairs each part of a full block has after it was parted.
const HALF: usize = PER_BLOCK / 2;

/// Some pairs of a token and a value, in the order of the tokens, with room for 128 of them.
/// Contracts see the list of pairs.
#[derive(Drop)]
pub struct Block<V> {
    pairs: Vec<(Token, V)>,
}

impl<V> Model for Block<V> {
    ghost use Rattle.std.specs.Prelude.{◌≤◌, vec_capacity};
    ghost use Rattle.std.specs.Coded.{coded_list, coded×, coded_ℕ};
    ghost use Rattle.sorted_blocks.specs.Pairs.{Pairs};
    ghost use Rattle.sorted_blocks.specs.declared.block.TheConstants.{PER_BLOCK};

    ghost Value = { Pairs V };

    ghost coded = { coded_list (coded× (coded_list coded_ℕ) V.code) };

    ghost view = { λ b. b.pairs.items };

    ghost invariant = { λ b. PER_BLOCK ≤ vec_capacity b.pairs };
}

impl<V: Drop> Block<V> {
    /// A block with no pair.
    pub fn new(alloc: Global) -> Result<Block<V>, AllocError>
        ensures { IfOk result (λ b. b ≡ []) }
    {
        Ok(Block {
            pairs: Vec::with_capacity(alloc, PER_BLOCK)?,
        })
    }

    /// How many pairs there are.
    pub fn len(&self) -> usize
        ensures { result ≡ length self.now }
    {
        self.pairs.len()
    }

    /// Whether the first token comes behind this one; not so where there is none.
    pub fn starts_behind(&self, token: &Token) -> bool
        ensures { result ≡ starts_behind token.now self.now }
    {
        match self.pairs.first() {
            None => false,
            Some(first) => order_of(token, &first.0) == Ordering::Less,
        }
    }

    /// The value under a token.
    pub fn get(&self, token: &Token) -> Option<&V>
        requires { IsRising self.now }
        ensures some { IfSome result (λ value. value_under self.now token.now ≡ Some value.now) }
        ensures none { IfNone result (value_under self.now token.now ≡ None) }
    {
        match place_of(&self.pairs, token) {
            Ok(at) => Some(&self.pairs[at].1),
            Err(_) => None,
        }
    }

    /// Adds a pair at its place, without memory.
    pub fn insert(&mut self, token: Token, value: V)
        requires rising { IsRising self.old }
        requires fresh { value_under self.old token ≡ None }
        requires room { length self.old < PER_BLOCK }
        ensures { (i : ℕ) × IsGap self.old token i × (self.new ≡ insert self.old i (token, value)) }
    {
        match place_of(&self.pairs, &token) {
            Ok(_) => unreachable!(),
            Err(at) => {
                let _ = self.pairs.insert(at, (token, value));
            }
        }
    }

    /// Moves the later half of a full block into a block of its own. Where memory is wanted nothing
    /// is changed.
    pub fn halve(&mut self) -> Result<Block<V>, AllocError>
        requires { length self.old ≡ PER_BLOCK }
        ensures upper { IfOk result (λ upper. upper ≡ drop HALF self.old) }
        ensures lower { OnOk result (self.new ≡ take HALF self.old) }
        ensures err { OnErr result (self.new ≡ self.old) }
    {
        let alloc: Global = *self.pairs.allocator();
        let mut upper = Vec::with_capacity(alloc, PER_BLOCK)?;
        let mut tail = self.pairs.split_off(HALF)?;
        let _ = upper.append(&mut tail);
        Ok(Block { pairs: upper })
    }
}
