//! The least number of each incarnation's entries, on a shelf for each shard.
ghost use Rattle.std.specs.Prelude.{◌≡◌, ◌+◌, ◌/◌, ◌≤◌, ◌<◌, length, slice_index_or, IfSome, IfNone, OnOk};
ghost use Rattle.min_tree.specs.Search.{AllAbove, IsFirstAtMost};
ghost use Rattle.ledger_rows.specs.Shelves.{AreSameShelves, HasPlace, IsLonger, IsNoted, no_numbers, shelf};

use min_tree::{ABOVE_ALL, MinTree};
use sched_plain::{SHARDS, shard_of};
use std::alloc::{AllocError, Global};

/// Makes a tree for each shard.
pub fn plant(trees: &mut Vec<MinTree>, alloc: Global) -> Result<(), AllocError>
    ensures same { AreSameShelves trees.old.items trees.new.items }
    ensures wide { OnOk result (SHARDS ≤ length trees.new.items) }
{
    while trees.len() < SHARDS as usize {
        trees.push(MinTree::new(alloc))?;
    }
    Ok(())
}

/// Makes room for one more place on a shelf.
pub fn reserve_place(trees: &mut Vec<MinTree>, shard: usize) -> Result<(), AllocError>
    requires { shard < length trees.old.items }
    ensures same { AreSameShelves trees.old.items trees.new.items }
    ensures length { length trees.new.items ≡ length trees.old.items }
    ensures room { OnOk result (1 ≤ (slice_index_or trees.new.items shard no_numbers).room) }
{
    let tree = &mut trees[shard];
    tree.reserve()
}

/// Puts an incarnation that has no entries behind the others of a shelf.
pub fn put_place(trees: &mut Vec<MinTree>, shard: usize)
    requires there { shard < length trees.old.items }
    requires room { 1 ≤ (slice_index_or trees.old.items shard no_numbers).room }
    ensures longer { IsLonger trees.old.items trees.new.items shard }
    ensures length { length trees.new.items ≡ length trees.old.items }
{
    let tree = &mut trees[shard];
    tree.push(ABOVE_ALL);
}

/// Writes the number of an incarnation.
pub fn note(trees: &mut Vec<MinTree>, inc: u32, number: u64)
    requires { HasPlace trees.old.items inc }
    ensures { IsNoted trees.old.items trees.new.items inc number }
{
    let tree = &mut trees[shard_of(inc) as usize];
    tree.set((inc / SHARDS as u32) as usize, number);
}

/// The first place of a shard whose number is at most a bound.
pub fn first_place(trees: &[MinTree], shard: u8, bound: u64) -> Option<usize>
    ensures some { IfSome result (IsFirstAtMost (shelf trees.now shard) 0 bound) }
    ensures none { IfNone result (AllAbove (shelf trees.now shard) 0 (length (shelf trees.now shard)) bound) }
{
    place_from(trees, shard, 0, bound)
}

/// The first place of a shard, at or behind one, whose number is at most a bound.
pub fn place_from(trees: &[MinTree], shard: u8, from: usize, bound: u64) -> Option<usize>
    ensures some { IfSome result (IsFirstAtMost (shelf trees.now shard) from bound) }
    ensures none { IfNone result (AllAbove (shelf trees.now shard) from (length (shelf trees.now shard)) bound) }
{
    if shard as usize >= trees.len() {
        return None;
    }
    let tree = &trees[shard as usize];
    tree.first_at_most(from, bound)
}
