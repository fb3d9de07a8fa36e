//! The numbers of an incarnation's entries, kept by blocks of sixteen entries.
ghost use Rattle.std.specs.Prelude.{◌≡◌, ℕ, ◌+◌, ◌*◌, ◌/◌, ◌≤◌, ◌<◌, length, slice_index, take, drop, IfSome, IfNone};
ghost use Rattle.min_tree.specs.Search.{AllAbove, IsFirstAtMost, least};
ghost use Rattle.ledger_rows.specs.Blocks.{AreBlocks, AreBlocksBefore, AreBlocksBut, AreBlocksSoFar, block_number};
ghost use Rattle.ledger_rows.specs.Numbers.{numbers_of};
ghost use Rattle.ledger_rows.specs.Rows.{IsLane};
ghost use Rattle.ledger_rows.specs.Stretch.{NoneInBlock};

use crate::counted_lines::CountedLines;
use crate::wants::wants;
use entry_lines::MOST_ENTRIES;
use min_tree::{ABOVE_ALL, MinTree};

/// How many entries one number of the tree stands for.
pub const PER_BLOCK: usize = 16;

/// The number of the entry at a place.
fn number_at(rows: &CountedLines, place: usize) -> u64
    requires lane { IsLane rows.now.rows }
    requires there { place < length rows.now.rows }
    ensures value { result ≡ slice_index (numbers_of rows.now.rows) place }
    ensures small { result ≤ ABOVE_ALL }
{
    wants(&rows.filed(place))
}

/// The least number of the entries of a block.
fn least_of(rows: &CountedLines, block: usize) -> u64
    requires lane { IsLane rows.now.rows }
    requires there { block * PER_BLOCK < length rows.now.rows }
    ensures { result ≡ block_number rows.now.rows block }
{
    let len = rows.len();
    let from = begin_of(rows, block);
    let mut least = ABOVE_ALL;
    for place in from..len.min(from + PER_BLOCK) {
        least = least.min(number_at(rows, place));
    }
    least
}

/// Writes the number of the block of an entry that was changed.
pub fn renumber(rows: &CountedLines, wants: &mut MinTree, place: usize)
    requires lane { IsLane rows.now.rows }
    requires there { place < length rows.now.rows }
    requires but { AreBlocksBut rows.now.rows wants.old.values (place / PER_BLOCK) }
    ensures blocks { AreBlocks rows.now.rows wants.new.values }
    ensures length { length wants.new.values ≡ length wants.old.values }
    ensures room { wants.new.room ≡ wants.old.room }
{
    let block = place / PER_BLOCK;
    wants.set(block, least_of(rows, block));
}

/// Writes the number of the last block, in which there may be more entries than it has the number of.
pub fn fill_last(rows: &CountedLines, wants: &mut MinTree)
    requires lane { IsLane rows.now.rows }
    requires but { AreBlocksBefore rows.now.rows wants.old.values }
    ensures so_far { AreBlocksSoFar rows.now.rows wants.new.values }
    ensures length { length wants.new.values ≡ length wants.old.values }
    ensures room { wants.new.room ≡ wants.old.room }
{
    if wants.len() > 0 {
        let block = wants.len() - 1;
        wants.set(block, least_of(rows, block));
    }
}

/// Writes the numbers of the blocks behind the ones that have theirs.
pub fn number_more(rows: &CountedLines, wants: &mut MinTree)
    requires lane { IsLane rows.now.rows }
    requires so_far { AreBlocksSoFar rows.now.rows wants.old.values }
    requires room { length rows.now.rows ≤ (length wants.old.values + wants.old.room) * PER_BLOCK }
    ensures blocks { AreBlocks rows.now.rows wants.new.values }
    ensures room { length wants.new.values + wants.new.room ≡ length wants.old.values + wants.old.room }
{
    let count = rows.len();
    while wants.len() * PER_BLOCK < count {
        let block = wants.len();
        wants.push(least_of(rows, block));
    }
}

/// The first place, at or behind one, whose number is at most a bound.
pub fn first_from(rows: &CountedLines, wants: &MinTree, from: usize, bound: u64) -> Option<usize>
    requires lane { IsLane rows.now.rows }
    requires blocks { AreBlocks rows.now.rows wants.now.values }
    requires from { from ≤ length rows.now.rows }
    requires bound { bound < ABOVE_ALL }
    ensures some { IfSome result (IsFirstAtMost (numbers_of rows.now.rows) from bound) }
    ensures few { IfSome result (λ place. place < MOST_ENTRIES) }
    ensures none { IfNone result (AllAbove (numbers_of rows.now.rows) from (length rows.now.rows) bound) }
{
    match first_in_block(rows, from, bound) {
        Some(place) => Some(place),
        None => first_behind(rows, wants, from, bound),
    }
}

/// The first place in the rest of a place's block whose number is at most a bound.
fn first_in_block(rows: &CountedLines, from: usize, bound: u64) -> Option<usize>
    requires lane { IsLane rows.now.rows }
    requires from { from ≤ length rows.now.rows }
    ensures some { IfSome result (IsFirstAtMost (numbers_of rows.now.rows) from bound) }
    ensures few { IfSome result (λ place. place < MOST_ENTRIES) }
    ensures none { IfNone result (NoneInBlock (numbers_of rows.now.rows) from bound) }
{
    let len = rows.len();
    let behind = (from / PER_BLOCK + 1) * PER_BLOCK;
    for place in from..len.min(behind) {
        if number_at(rows, place) <= bound {
            return Some(place);
        }
    }
    None
}

/// Where a block begins.
fn begin_of(rows: &CountedLines, block: usize) -> usize
    requires { block * PER_BLOCK < length rows.now.rows }
    ensures { result ≡ block * PER_BLOCK }
{
    let _most = rows.len();
    block * PER_BLOCK
}

/// The first place behind a place's block whose number is at most a bound, where none is in the rest of that block.
fn first_behind(rows: &CountedLines, wants: &MinTree, from: usize, bound: u64) -> Option<usize>
    requires lane { IsLane rows.now.rows }
    requires blocks { AreBlocks rows.now.rows wants.now.values }
    requires from { from ≤ length rows.now.rows }
    requires bound { bound < ABOVE_ALL }
    requires rest { NoneInBlock (numbers_of rows.now.rows) from bound }
    ensures some { IfSome result (IsFirstAtMost (numbers_of rows.now.rows) from bound) }
    ensures few { IfSome result (λ place. place < MOST_ENTRIES) }
    ensures none { IfNone result (AllAbove (numbers_of rows.now.rows) from (length rows.now.rows) bound) }
{
    match wants.first_at_most(from / PER_BLOCK + 1, bound) {
        Some(block) => first_in_block(rows, begin_of(rows, block), bound),
        None => None,
    }
}
