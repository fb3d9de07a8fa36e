ghost use Rattle.std.specs.Prelude.{◌≡◌, ◌==◌, ℕ, ◌+◌, ◌<◌, ◌≤◌, List, [], None, Some, IfSome, IfNone, IsOk, OnOk, OnErr, length, vec_len, vec_capacity, if◌then◌else◌};
ghost use Rattle.std.specs.List.{insert};
ghost use Rattle.plain_words.specs.Lists.{same_text};
ghost use Rattle.sorted_blocks.specs.Pairs.{value_under};
ghost use Rattle.sorted_blocks.specs.Blocks.{joined, AreBlocks, IsPlaceFor, IsPut};

use crate::block::{Block, PER_BLOCK};
use crate::place::block_for;
use plain_words::Token;
use std::alloc::{AllocError, Global};
use std::marker::Model;

/// Values under client tokens. Contracts see the pairs, of which a caller looks up values, and how
/// many more there is room for.
#[derive(Drop)]
pub struct SortedBlocks<V> {
    blocks: Vec<Block<V>>,
    /// The one block that is full, if one is.
    full: Option<usize>,
}

impl<V> Model for SortedBlocks<V> {
    ghost use Rattle.sorted_blocks.specs.Pairs.{Held, held_code};
    ghost use Rattle.sorted_blocks.specs.Blocks.{joined, room_of, AreBlocks};

    ghost Value = { Held V };

    ghost coded = { held_code V.code };

    ghost view = { λ b. record { pairs = joined b.blocks.items; room = room_of b.blocks.items b.full } };

    ghost invariant = { λ b. AreBlocks b.blocks.items b.full };
}

impl<V: Drop> SortedBlocks<V> {
    /// No pair, and no room for one. Takes no memory.
    pub fn new(alloc: Global) -> SortedBlocks<V>
        ensures { result.pairs ≡ [] }
    {
        SortedBlocks {
            blocks: Vec::new(alloc),
            full: None,
        }
    }

    /// The value under a token, if there is one.
    pub fn get(&self, token: &Token) -> Option<&V>
        ensures some { IfSome result (λ value. value_under self.now.pairs token.now ≡ Some value.now) }
        ensures none { IfNone result (value_under self.now.pairs token.now ≡ None) }
    {
        if self.blocks.is_empty() {
            return None;
        }
        let at = block_for(&self.blocks, token);
        self.blocks[at].get(token)
    }

    /// Makes room for one more pair, where there is none. Where memory is wanted nothing is changed.
    pub fn reserve(&mut self) -> Result<(), AllocError>
        ensures pairs { self.new.pairs ≡ self.old.pairs }
        ensures room { OnOk result (1 ≤ self.new.room) }
        ensures kept { self.old.room ≤ self.new.room }
        ensures ready { 1 ≤ self.old.room → IsOk result }
    {
        match self.full {
            Some(at) => {
                part(&mut self.blocks, at)?;
                self.full = None;
                Ok(())
            }
            None => begin(&mut self.blocks),
        }
    }

    /// Keeps a value under a token that has none yet. Takes no memory, and uses up the room for one.
    pub fn insert(&mut self, token: Token, value: V)
        requires room { 1 ≤ self.old.room }
        requires fresh { value_under self.old.pairs token ≡ None }
        ensures pairs { (q : List ℕ) → value_under self.new.pairs q ≡ (if same_text token q then Some value else value_under self.old.pairs q) }
        ensures room { self.old.room ≤ self.new.room + 1 }
    {
        let at = block_for(&self.blocks, &token);
        self.full = put(&mut self.blocks, at, token, value);
    }
}

/// Makes a first block, where there is none.
fn begin<V: Drop>(blocks: &mut Vec<Block<V>>) -> Result<(), AllocError>
    requires { AreBlocks blocks.old.items None }
    ensures blocks { AreBlocks blocks.new.items None }
    ensures pairs { joined blocks.new.items ≡ joined blocks.old.items }
    ensures some { OnOk result (0 < length blocks.new.items) }
    ensures kept { 0 < length blocks.old.items → IsOk result }
{
    if !blocks.is_empty() {
        return Ok(());
    }
    let alloc: Global = *blocks.allocator();
    blocks.push(Block::new(alloc)?)?;
    Ok(())
}

/// Parts the full block in two.
fn part<V: Drop>(blocks: &mut Vec<Block<V>>, at: usize) -> Result<(), AllocError>
    requires { AreBlocks blocks.old.items (Some at) }
    ensures ok { OnOk result (AreBlocks blocks.new.items None) }
    ensures err { OnErr result (blocks.new.items ≡ blocks.old.items) }
    ensures pairs { joined blocks.new.items ≡ joined blocks.old.items }
    ensures some { 0 < length blocks.new.items }
{
    blocks.reserve(1)?;
    let block = &mut blocks[at];
    let upper = block.halve()?;
    add_block(blocks, at + 1, upper);
    Ok(())
}

fn add_block<V: Drop>(blocks: &mut Vec<Block<V>>, at: usize, block: Block<V>)
    requires within { at ≤ vec_len blocks.old }
    requires room { vec_len blocks.old < vec_capacity blocks.old }
    ensures { blocks.new.items ≡ insert blocks.old.items at block }
{
    let _ = blocks.insert(at, block);
}

/// Puts a new pair into its block, and answers that block where it is full then.
fn put<V: Drop>(blocks: &mut Vec<Block<V>>, at: usize, token: Token, value: V) -> Option<usize>
    requires place { IsPlaceFor blocks.old.items token at }
    requires blocks { AreBlocks blocks.old.items None }
    requires fresh { value_under (joined blocks.old.items) token ≡ None }
    ensures put { IsPut (joined blocks.old.items) token value (joined blocks.new.items) }
    ensures blocks { AreBlocks blocks.new.items result }
{
    let block = &mut blocks[at];
    block.insert(token, value);
    full_at(at, block.len())
}

/// The place of a block of so many pairs, where that is as many as it can take.
fn full_at(at: usize, pairs: usize) -> Option<usize>
    ensures { result ≡ (if pairs == PER_BLOCK then Some at else None) }
{
    if pairs == PER_BLOCK { Some(at) } else { None }
}
