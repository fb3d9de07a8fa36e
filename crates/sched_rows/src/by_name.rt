//! The index of what lives by group and name: where a name stands in it.
ghost use Rattle.std.specs.Prelude.{◌≡◌};
ghost use Rattle.std.specs.Option.{option_copied};
ghost use Rattle.plain_words.specs.Lists.{nth};
ghost use Rattle.sched_rows.specs.Filing.{comes_short, is_called, IsByName};
ghost use Rattle.sched_rows.specs.State.{rows_in};
ghost use Rattle.sched_plain.specs.Rows.{living};
ghost use Rattle.sched_rows.specs.Order.{IsPlace};

use crate::edge::Edge;
use crate::order::{has_names, is_short_of};
use crate::row::KeptRow;
use sched_plain::Name;

/// The row of a number, from 1.
pub fn row_at(rows: &[KeptRow], number: u32) -> Option<&KeptRow>
    ensures { option_copied result ≡ nth rows.now number }
{
    if number == 0 {
        return None;
    }
    if number as usize > rows.len() {
        return None;
    }
    Some(&rows[number as usize - 1])
}

/// Whether the row of a number comes before a name in a group, or is not behind the names that begin with it.
fn comes_short(rows: &[KeptRow], number: u32, group: &[u8], name: &[u8], edge: Edge) -> bool
    ensures { result ≡ comes_short rows.now group.now name.now edge number }
{
    match row_at(rows, number) {
        Some(row) => is_short_of(row, group, name, edge),
        None => false,
    }
}

/// The place in the index at which a name in a group stands or would stand, or at which the names that begin with it end.
pub fn place_of(rows: &[KeptRow], numbers: &[u32], group: &[u8], name: &[u8], edge: Edge) -> usize
    ensures { IsPlace (comes_short rows.now group.now name.now edge) numbers.now result }
{
    let mut low = 0;
    let mut high = numbers.len();
    while low < high {
        let middle = low + (high - low) / 2;
        if comes_short(rows, numbers[middle], group, name, edge) {
            low = middle + 1;
        } else {
            high = middle;
        }
    }
    low
}

/// Whether the row of a number has a group and a name.
fn is_called(rows: &[KeptRow], number: u32, group: &Name, name: &Name) -> bool
    ensures { result ≡ is_called rows.now group.now name.now number }
{
    match row_at(rows, number) {
        Some(row) => has_names(row, group, name),
        None => false,
    }
}

/// The number of the living row of a group and a name.
pub fn living_at(rows: &[KeptRow], numbers: &[u32], group: &Name, name: &Name) -> Option<u32>
    requires { IsByName (rows_in rows.now) numbers.now }
    ensures { result ≡ living (rows_in rows.now) group.now name.now }
{
    let place = place_of(
        rows,
        numbers,
        group.as_bytes(),
        name.as_bytes(),
        Edge::Before,
    );
    if place == numbers.len() {
        return None;
    }
    let number = numbers[place];
    if is_called(rows, number, group, name) {
        Some(number)
    } else {
        None
    }
}
