ghost use Rattle.std.specs.Prelude.{◌≡◌, ◌≤◌, ◌-◌, ◌^◌, min, None, Some, IsSome, OnOk};
ghost use Rattle.std.specs.BTreeMap.{get_by_text, values};
ghost use Rattle.dead_letters.specs.Piles.{Piled, room_on};
ghost use Rattle.dead_letters.specs.Shown.{Changes, Widened, IsAdded, AreApart, count_in};

use crate::pile::Pile;
use sched_plain::{Letter, Text};
use std::alloc::{AllocError, Global};
use std::collections::BTreeMap;

/// How many more letters of a queue there is room for.
pub fn room_for(piles: &BTreeMap<String, Pile>, queue: &Text) -> u64
    ensures { result ≡ room_on (get_by_text piles.now queue.now) }
{
    match piles.get(queue.as_str()) {
        Some(pile) => pile.room() as u64,
        None => 0,
    }
}

/// Makes room for so many more letters of a queue, and a pile where it has none.
pub fn make_room(
    alloc: Global,
    piles: &mut BTreeMap<String, Pile>,
    queue: &Text,
    count: usize,
) -> Result<(), AllocError>
    ensures widened { Widened piles.old piles.new }
    ensures room { OnOk result (count ≤ room_on (get_by_text piles.new queue.now)) }
{
    if piles.contains_key(queue.as_str()) {
        return widen(piles, queue, count);
    }
    begin(alloc, piles, queue)?;
    widen(piles, queue, count)
}

/// Makes an empty pile for a queue that has none.
fn begin(alloc: Global, piles: &mut BTreeMap<String, Pile>, queue: &Text) -> Result<(), AllocError>
    requires { get_by_text piles.old queue.now ≡ None }
    ensures widened { Widened piles.old piles.new }
    ensures there { OnOk result (IsSome (get_by_text piles.new queue.now)) }
{
    let name = String::from_str(alloc, queue.as_str())?;
    piles.insert(name, Pile::new(alloc))?;
    Ok(())
}

/// Makes room in the pile of a queue.
fn widen(piles: &mut BTreeMap<String, Pile>, queue: &Text, count: usize) -> Result<(), AllocError>
    requires { IsSome (get_by_text piles.old queue.now) }
    ensures widened { Widened piles.old piles.new }
    ensures room { OnOk result (count ≤ room_on (get_by_text piles.new queue.now)) }
{
    match piles.get_mut(queue.as_str()) {
        Some(pile) => pile.reserve(count),
        None => unreachable!(),
    }
}

/// Adds a letter to the pile of a queue.
pub fn push_to(piles: &mut BTreeMap<String, Pile>, queue: &Text, letter: Letter)
    requires { 1 ≤ room_on (get_by_text piles.old queue.now) }
    ensures { (before after : Piled) × (get_by_text piles.old queue.now ≡ Some before) × IsAdded before after letter × Changes piles.old piles.new queue.now after }
{
    match piles.get_mut(queue.as_str()) {
        Some(pile) => pile.push(letter),
        None => unreachable!(),
    }
}

/// How many letters all piles have: the greatest number where there are more.
pub fn count_of(piles: &BTreeMap<String, Pile>) -> u64
    ensures count { result ≡ min (count_in (values piles.now)) (2 ^ 64 - 1) }
    ensures apart { AreApart piles.now.entries }
{
    let mut count = 0u64;
    for pile in piles.values() {
        count = count.saturating_add(pile.len());
    }
    count
}
