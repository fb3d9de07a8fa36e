//! The index of what lives by number: the least living incarnation above one.
ghost use Rattle.std.specs.Prelude.{◌≡◌, ◌≤◌, nat_le, nat_lt, ◌&&◌, length, drop};
ghost use Rattle.std.specs.List.{find};
ghost use Rattle.std.specs.Option.{option_map};
ghost use Rattle.plain_words.specs.Lists.{some_pass, nth};
ghost use Rattle.sched_rows.specs.Answers.{is_of, next_living};
ghost use Rattle.sched_rows.specs.Filing.{living_rows};
ghost use Rattle.sched_rows.specs.Order.{IsPlace, numbers_in};
ghost use Rattle.sched_rows.specs.State.{rows_in};

use crate::by_name::row_at;
use crate::row::KeptRow;
use sched_plain::Name;

/// The place of the first number above one.
fn place_above(numbers: &[u32], after: u32) -> usize
    ensures { IsPlace (λ n. nat_le n after) numbers.now result }
{
    let mut low = 0;
    let mut high = numbers.len();
    while low < high {
        let middle = low + (high - low) / 2;
        if numbers[middle] <= after {
            low = middle + 1;
        } else {
            high = middle;
        }
    }
    low
}

/// Whether a row is of a group, where one is asked for.
pub fn is_of(row: &KeptRow, group: Option<&Name>) -> bool
    ensures { result ≡ is_of (option_map (λ g. g.now) group.entry) row.now.row }
{
    match group {
        Some(group) => group == row.group(),
        None => true,
    }
}

/// Whether the row of a number is of a group, where one is asked for.
fn is_of_at(rows: &[KeptRow], number: u32, group: Option<&Name>) -> bool
    ensures { result ≡ some_pass (is_of (option_map (λ g. g.now) group.entry)) (nth (rows_in rows.now) number) }
{
    match row_at(rows, number) {
        Some(row) => is_of(row, group),
        None => false,
    }
}

/// The first of some numbers from a place on that is above one and whose row is of a group, where one is asked for.
fn first_of(
    rows: &[KeptRow],
    numbers: &[u32],
    place: usize,
    group: Option<&Name>,
    after: u32,
) -> Option<u32>
    requires { place ≤ length numbers.now }
    ensures { result ≡ find (λ n. nat_lt after n && some_pass (is_of (option_map (λ g. g.now) group.entry)) (nth (rows_in rows.now) n)) (drop place numbers.now) }
{
    for i in place..numbers.len() {
        let number = numbers[i];
        if number > after && is_of_at(rows, number, group) {
            return Some(number);
        }
    }
    None
}

/// The least living incarnation above one, of a group where one is asked for.
pub fn next_living(
    rows: &[KeptRow],
    numbers: &[u32],
    group: Option<&Name>,
    after: u32,
) -> Option<u32>
    requires { numbers.now ≡ numbers_in (living_rows (rows_in rows.now)) }
    ensures { result ≡ next_living (rows_in rows.now) (option_map (λ g. g.now) group.entry) after }
{
    let place = place_above(numbers, after);
    first_of(rows, numbers, place, group, after)
}
