ghost use Rattle.std.specs.Prelude.{◌≡◌, ◌+◌, ◌≤◌, ◌<◌, [], ◌∷◌, ◌++◌, length, slice_set, slice_index, IsOk, OnOk, IfSome, IfNone};
ghost use Rattle.min_tree.specs.Search.{IsFirstAtMost, AllAbove, least};

use crate::nodes::{ABOVE_ALL, grown, next_leaves, put};
use crate::walk::first_from;
use std::alloc::{AllocError, Global};
use std::marker::Model;

/// A list of numbers, and room for more, with the least number of each stretch at hand.
#[derive(Drop)]
pub struct MinTree {
    /// The nodes of a tree of minima: the root at 1, the children of node i at 2i and 2i + 1, and the leaves last.
    tree: Vec<u64>,
    /// How many leaves there are: none, or a power of two.
    leaves: usize,
    /// How many levels the tree has.
    levels: usize,
    /// How many of the leaves hold numbers, from the left.
    len: usize,
}

impl Model for MinTree {
    ghost use Rattle.std.specs.Prelude.{◌-◌, take, drop};
    ghost use Rattle.min_tree.specs.Numbers.{Numbers};
    ghost use Rattle.min_tree.specs.Heap.{IsTree};

    ghost Value = { Numbers };

    ghost view = { λ m. record { values = take m.len (drop m.leaves m.tree.items); room = m.leaves - m.len } };

    ghost invariant = { λ m. IsTree m.tree.items m.leaves m.levels m.len };
}

impl MinTree {
    /// The empty list, which takes no memory.
    pub fn new(alloc: Global) -> MinTree
        ensures values { result.values ≡ [] }
        ensures room { result.room ≡ 0 }
    {
        MinTree {
            tree: Vec::new(alloc),
            leaves: 0,
            levels: 0,
            len: 0,
        }
    }

    /// How many numbers there are.
    pub fn len(&self) -> usize
        ensures { result ≡ length self.now.values }
    {
        self.len
    }

    /// Makes room for one more number. Where memory is wanted the list is as before.
    pub fn reserve(&mut self) -> Result<(), AllocError>
        ensures values { self.new.values ≡ self.old.values }
        ensures kept { self.old.room ≤ self.new.room }
        ensures room { OnOk result (1 ≤ self.new.room) }
        ensures ready { 1 ≤ self.old.room → IsOk result }
    {
        if self.len < self.leaves {
            return Ok(());
        }
        self.grow()
    }

    /// Makes room for so many more numbers. Where memory is wanted the list is as before.
    pub fn reserve_many(&mut self, count: usize) -> Result<(), AllocError>
        ensures values { self.new.values ≡ self.old.values }
        ensures kept { self.old.room ≤ self.new.room }
        ensures room { OnOk result (count ≤ self.new.room) }
    {
        widen(self, count)
    }

    /// How many more numbers there is room for.
    fn spare(&self) -> usize
        ensures { result ≡ self.now.room }
    {
        self.leaves - self.len
    }

    /// Makes the tree one level higher.
    fn grow(&mut self) -> Result<(), AllocError>
        ensures values { self.new.values ≡ self.old.values }
        ensures kept { self.old.room ≤ self.new.room }
        ensures more { OnOk result (self.old.room < self.new.room) }
    {
        let alloc: Global = *self.tree.allocator();
        self.tree = grown(&self.tree, self.leaves, self.levels, alloc)?;
        self.leaves = next_leaves(self.leaves, self.levels);
        self.levels += 1;
        Ok(())
    }

    /// Adds a number at the end; it uses up one of the room.
    pub fn push(&mut self, value: u64)
        requires { 1 ≤ self.old.room }
        ensures values { self.new.values ≡ self.old.values ++ value ∷ [] }
        ensures room { self.old.room ≡ self.new.room + 1 }
    {
        put(&mut self.tree, self.leaves, self.levels, self.len, value);
        self.len += 1;
    }

    /// Changes the number at a place, from 0.
    pub fn set(&mut self, place: usize, value: u64)
        requires { place < length self.old.values }
        ensures values { self.new.values ≡ slice_set self.old.values place value }
        ensures room { self.new.room ≡ self.old.room }
    {
        put(&mut self.tree, self.leaves, self.levels, place, value);
    }

    /// The number at a place, from 0.
    pub fn get(&self, place: usize) -> u64
        requires { place < length self.now.values }
        ensures { result ≡ slice_index self.now.values place }
    {
        self.tree[self.leaves + place]
    }

    /// The least number, `ABOVE_ALL` where there is none.
    pub fn least(&self) -> u64
        ensures { result ≡ least self.now.values }
    {
        if self.leaves == 0 {
            return ABOVE_ALL;
        }
        self.tree[1]
    }

    /// The first place, at or behind one, whose number is at most a bound.
    pub fn first_at_most(&self, from: usize, bound: u64) -> Option<usize>
        ensures some { IfSome result (IsFirstAtMost self.now.values from bound) }
        ensures none { IfNone result (AllAbove self.now.values from (length self.now.values) bound) }
    {
        if from >= self.len {
            return None;
        }
        match first_from(&self.tree, self.leaves, self.levels, from, bound) {
            Some(place) => within(place, self.len),
            None => None,
        }
    }
}

/// Makes a tree higher until there is room for so many more numbers.
fn widen(tree: &mut MinTree, count: usize) -> Result<(), AllocError>
    ensures values { tree.new.values ≡ tree.old.values }
    ensures kept { tree.old.room ≤ tree.new.room }
    ensures room { OnOk result (count ≤ tree.new.room) }
{
    while tree.spare() < count {
        tree.grow()?;
    }
    Ok(())
}

/// The place, where it is one of so many.
fn within(place: usize, len: usize) -> Option<usize>
    ensures some { IfSome result (λ found. (found ≡ place) × (place < len)) }
    ensures none { IfNone result (len ≤ place) }
{
    if place < len { Some(place) } else { None }
}
