//! The groups, in the order of their creation, with their index by name.
ghost use Rattle.std.specs.Prelude.{◌≡◌, ◌≤◌, ◌<◌, ◌+◌, ◌-◌, ◌==◌, nat_lt, not, true, None, map, [], ◌∷◌, ◌++◌, false, length, OnOk, IfOk, vec_len, vec_capacity, if◌then◌else◌};
ghost use Rattle.std.specs.List.{filter, find, insert, position};
ghost use Rattle.std.specs.Option.{option_copied, option_map};
ghost use Rattle.plain_words.specs.Lists.{nth};
ghost use Rattle.plain_words.specs.Moments.{moment_of};
ghost use Rattle.sched_plain.specs.Groups.{default_name, is_named, has_group};
ghost use Rattle.sched_calls.specs.Replies.{group_page_of, listed_groups};
ghost use Rattle.sched_rows.specs.GroupIndex.{group_short, is_group_short, lowered, IsGrouped};
ghost use Rattle.sched_rows.specs.Order.{IsPlace};
ghost use Rattle.sched_rows.specs.Pages.{group_shown_at};

use crate::edge::Edge;
use crate::group_lists::page_of;
use crate::order::{same_text, text_before};
use sched_calls::GroupPage;
use sched_plain::{GroupRow, MOST_GROUPS, Moment, Name, Text};
use std::alloc::{AllocError, Global};
use std::marker::Model;

/// The groups that are there, and their places by name.
#[derive(Drop)]
pub struct Groups {
    groups: Vec<GroupRow>,
    by_name: Vec<u32>,
}

impl Model for Groups {
    ghost use Rattle.std.specs.Prelude.{◌-◌, min, vec_len, vec_capacity};
    ghost use Rattle.sched_rows.specs.GroupIndex.{Gathered, IsGrouped};

    ghost Value = { Gathered };

    ghost view = { λ s. record {
      groups = s.groups.items;
      room = min (vec_capacity s.groups - vec_len s.groups) (vec_capacity s.by_name - vec_len s.by_name);
    } };

    ghost invariant = { λ s. IsGrouped s.groups.items s.by_name.items };
}

/// The group at a place, from 1.
pub fn group_at(groups: &[GroupRow], place: u32) -> Option<&GroupRow>
    ensures { option_copied result ≡ nth groups.now place }
{
    if place == 0 {
        return None;
    }
    if place as usize > groups.len() {
        return None;
    }
    Some(&groups[place as usize - 1])
}

/// Whether a group comes before a name, or is not behind the names that begin with it.
fn is_short_of(group: &GroupRow, name: &[u8], edge: Edge) -> bool
    ensures { result ≡ is_group_short name.now edge group.now }
{
    let before = text_before(group.name.as_bytes(), name);
    match edge {
        Edge::Before => before,
        Edge::Behind => before || group.name.as_bytes().starts_with(name),
    }
}

/// The same of the group at a place.
fn comes_short(groups: &[GroupRow], place: u32, name: &[u8], edge: Edge) -> bool
    ensures { result ≡ group_short groups.now name.now edge place }
{
    match group_at(groups, place) {
        Some(group) => is_short_of(group, name, edge),
        None => false,
    }
}

/// The place in the index at which a name stands or would stand, or at which the names that begin with it end.
pub fn place_of(groups: &[GroupRow], places: &[u32], name: &[u8], edge: Edge) -> usize
    ensures { IsPlace (group_short groups.now name.now edge) places.now result }
{
    let mut low = 0;
    let mut high = places.len();
    while low < high {
        let middle = low + (high - low) / 2;
        if comes_short(groups, places[middle], name, edge) {
            low = middle + 1;
        } else {
            high = middle;
        }
    }
    low
}

/// Where the group of a name stands in the order of creation, counted from 0.
fn position_of(groups: &[GroupRow], name: &Name) -> Option<usize>
    ensures { result ≡ position (is_named name.now) groups.now }
{
    groups.iter().position(|group| is_named(name, group))
}

/// Whether a group has a name.
fn is_named(name: &Name, group: &GroupRow) -> bool
    ensures { result ≡ is_named name.now group.now }
{
    same_text(name.as_bytes(), group.name.as_bytes())
}

/// The group at a place, where it has a name.
fn named_at<'a>(groups: &'a [GroupRow], place: u32, name: &Name) -> Option<&'a GroupRow>
    ensures { option_copied result ≡ group_shown_at (is_named name.now) groups.now place }
{
    match group_at(groups, place) {
        Some(group) => if is_named(name, group) {
            Some(group)
        } else {
            None
        },
        None => None,
    }
}

/// The group of a name.
fn group_of<'a>(groups: &'a [GroupRow], places: &[u32], name: &Name) -> Option<&'a GroupRow>
    requires { IsGrouped groups.now places.now }
    ensures { option_copied result ≡ find (is_named name.now) groups.now }
{
    let index = place_of(groups, places, name.as_bytes(), Edge::Before);
    if index == places.len() {
        return None;
    }
    named_at(groups, places[index], name)
}

/// Takes a place out of a list.
fn take_out(places: &mut Vec<u32>, place: u32)
    ensures { places.new.items ≡ filter (λ n. not (n == place)) places.old.items }
{
    places.retain(|n| *n != place);
}

/// A place after the one before it, or at it, was taken out.
fn lowered(place: u32, out: u32) -> u32
    ensures { result ≡ lowered out place }
{
    if place > out { place - 1 } else { place }
}

/// Lowers the places above one by one.
fn lower_above(places: &mut [u32], out: u32)
    ensures { places.new ≡ map (lowered out) places.old }
{
    for i in 0..places.len() {
        places[i] = lowered(places[i], out);
    }
}

/// Takes out the group of a name.
fn drop_group(groups: &mut Vec<GroupRow>, name: &Name)
    ensures { groups.new.items ≡ filter (λ group. not (is_named name.now group)) groups.old.items }
{
    groups.retain(|group| !is_named(name, group));
}

/// Takes a place out of an index, where the groups behind it have moved up by one.
fn close_up(places: &mut Vec<u32>, out: u32)
    ensures { places.new.items ≡ map (lowered out) (filter (λ n. not (n == out)) places.old.items) }
{
    take_out(places, out);
    lower_above(places, out);
}

/// Adds a group at the end, where there is room.
fn push_group(groups: &mut Vec<GroupRow>, group: GroupRow)
    requires { vec_len groups.old < vec_capacity groups.old }
    ensures { groups.new.items ≡ groups.old.items ++ group ∷ [] }
{
    let _ = groups.push(group);
}

/// Inserts a place at an index, where there is room.
fn insert_place(places: &mut Vec<u32>, index: usize, place: u32)
    requires room { vec_len places.old < vec_capacity places.old }
    requires within { index ≤ length places.old.items }
    ensures { places.new.items ≡ insert places.old.items index place }
{
    let _ = places.insert(index, place);
}

impl Groups {
    /// No groups yet. It takes no memory.
    pub fn new(alloc: Global) -> Groups
        ensures { result.groups ≡ [] }
    {
        Groups {
            groups: Vec::new(alloc),
            by_name: Vec::new(alloc),
        }
    }

    /// The group of a name, where it is there.
    pub fn get(&self, name: &Name) -> Option<&GroupRow>
        ensures { option_copied result ≡ find (is_named name.now) self.now.groups }
    {
        group_of(&self.groups, &self.by_name, name)
    }

    /// How many groups are there.
    pub fn count(&self) -> u64
        ensures { result ≡ length self.now.groups }
    {
        self.groups.len() as u64
    }

    /// Makes room for one more group.
    pub fn reserve(&mut self) -> Result<(), AllocError>
        ensures groups { self.new.groups ≡ self.old.groups }
        ensures room { OnOk result (1 ≤ self.new.room) }
        ensures kept { self.old.room ≤ self.new.room }
    {
        self.groups.reserve(1)?;
        self.by_name.reserve(1)
    }

    /// Creates a group, where none has its name.
    pub fn create(&mut self, name: Name, at: Moment)
        requires room { 1 ≤ self.old.room }
        requires few { length self.old.groups < MOST_GROUPS }
        requires free { find (is_named name) self.old.groups ≡ None }
        ensures { self.new.groups ≡ self.old.groups ++ record { name = name; created = at } ∷ [] }
    {
        let index = place_of(&self.groups, &self.by_name, name.as_bytes(), Edge::Before);
        let place = self.groups.len() as u32 + 1;
        push_group(&mut self.groups, GroupRow { name, created: at });
        insert_place(&mut self.by_name, index, place);
    }

    /// Deletes the group of a name.
    pub fn delete(&mut self, name: &Name)
        ensures { self.new.groups ≡ filter (λ group. not (is_named name.now group)) self.old.groups }
    {
        if let Some(position) = position_of(&self.groups, name) {
            drop_group(&mut self.groups, name);
            close_up(&mut self.by_name, position as u32 + 1);
        }
    }
    /// The first groups behind a name, at most so many, and whether more follow.
    pub fn list(
        &self,
        alloc: Global,
        prefix: &Text,
        after: Option<&Name>,
        max: u8,
    ) -> Result<GroupPage, AllocError>
        ensures { IfOk result (λ page. page ≡ group_page_of max (listed_groups prefix.now (option_map (λ n. n.now) after.entry) self.now.groups)) }
    {
        page_of(alloc, &self.groups, &self.by_name, prefix, after, max)
    }
}
