ghost use Rattle.std.specs.Prelude.{◌≡◌, ◌+◌, ◌≤◌, ◌<◌, [], ◌∷◌, ◌++◌, length, OnOk, IsOk};
ghost use Rattle.std.specs.List.{find};
ghost use Rattle.plain_words.specs.Lists.{change_nth};
ghost use Rattle.plain_words.specs.declared.limits.TheConstants.{MOST_INCARNATIONS, SHARDS};
ghost use Rattle.date_table.specs.Dates.{IsDate, has_come, date_at};
ghost use Rattle.date_table.specs.Tables.{of_shard};

use crate::places::{date_of, inc_in_shard, latest_date, number_of, place_in_shard, shard_of_inc};
use min_tree::MinTree;
use std::alloc::{AllocError, Global};
use std::marker::Model;

/// A date, in seconds, or none for each incarnation, in the order of their numbers.
#[derive(Drop)]
pub struct DateTable {
    /// A tree for each shard, of its incarnations in their order: `NEVER` where there is no date.
    trees: [MinTree; 8],
    /// How many incarnations there are.
    len: u64,
}

impl Model for DateTable {
    ghost use Rattle.date_table.specs.Tables.{Dated};
    ghost use Rattle.date_table.specs.Shards.{IsSharded, dates_in, room_in};

    ghost Value = { Dated };

    ghost view = { λ t. record { dates = dates_in t.trees t.len; room = room_in t.trees t.len } };

    ghost invariant = { λ t. IsSharded t.trees t.len };
}

impl DateTable {
    /// No date. Takes no memory.
    pub fn new(alloc: Global) -> DateTable
        ensures { result.dates ≡ [] }
    {
        DateTable {
            trees: [
                MinTree::new(alloc),
                MinTree::new(alloc),
                MinTree::new(alloc),
                MinTree::new(alloc),
                MinTree::new(alloc),
                MinTree::new(alloc),
                MinTree::new(alloc),
                MinTree::new(alloc),
            ],
            len: 0,
        }
    }

    /// How many incarnations there are.
    pub fn len(&self) -> u64
        ensures { result ≡ length self.now.dates }
    {
        self.len
    }

    /// The date of an incarnation: none where it has none, or is not there.
    pub fn get(&self, inc: u32) -> Option<u64>
        ensures { result ≡ date_at self.now.dates inc }
    {
        if inc == 0 || u64::from(inc) > self.len {
            return None;
        }
        let tree = &self.trees[shard_of_inc(u64::from(inc))];
        date_of(tree.get(place_in_shard(u64::from(inc))))
    }

    /// Makes room for one more incarnation. Where memory is wanted the dates are as before.
    pub fn reserve(&mut self) -> Result<(), AllocError>
        ensures dates { self.new.dates ≡ self.old.dates }
        ensures room { OnOk result (1 ≤ self.new.room) }
        ensures kept { self.old.room ≤ self.new.room }
        ensures ready { 1 ≤ self.old.room → IsOk result }
    {
        let shard = shard_of_inc(self.len + 1);
        let tree = &mut self.trees[shard];
        tree.reserve()
    }

    /// Adds the next incarnation, with its date. Takes no memory, and uses up the room for one.
    pub fn push(&mut self, date: Option<u64>)
        requires room { 1 ≤ self.old.room }
        requires few { length self.old.dates < MOST_INCARNATIONS }
        requires date { IsDate date }
        ensures dates { self.new.dates ≡ self.old.dates ++ date ∷ [] }
        ensures room { self.old.room ≤ self.new.room + 1 }
    {
        let shard = shard_of_inc(self.len + 1);
        let tree = &mut self.trees[shard];
        tree.push(number_of(date));
        self.len += 1;
    }

    /// Changes the date of an incarnation. Takes no memory.
    pub fn set(&mut self, inc: u32, date: Option<u64>)
        requires low { 1 ≤ inc }
        requires within { inc ≤ length self.old.dates }
        requires date { IsDate date }
        ensures dates { self.new.dates ≡ change_nth (λ old. date) self.old.dates inc }
        ensures room { self.new.room ≡ self.old.room }
    {
        let shard = shard_of_inc(u64::from(inc));
        let tree = &mut self.trees[shard];
        tree.set(place_in_shard(u64::from(inc)), number_of(date));
    }

    /// The first incarnation of a shard whose date has come at a moment, whatever the moment.
    pub fn first_come(&self, shard: u8, now: u64) -> Option<u32>
        requires { shard < SHARDS }
        ensures { result ≡ find (λ inc. has_come now (date_at self.now.dates inc)) (of_shard shard (length self.now.dates)) }
    {
        let tree = &self.trees[shard as usize];
        match tree.first_at_most(0, latest_date(now)) {
            Some(place) => Some(inc_in_shard(shard, place)),
            None => None,
        }
    }
}
