ghost use Rattle.date_table.specs.Dates.{IsDate};

use date_table::DateTable;
use plain_words::MOST_INCARNATIONS;
use std::alloc::{AllocError, Global};
use std::test::Fail;

/// A date, where 0 stands for none.
fn date_of(number: u64) -> Option<u64>
    ensures { IsDate result }
{
    if number == 0 || number == u64::MAX {
        None
    } else {
        Some(number)
    }
}

/// Adds the next incarnation.
fn add(table: &mut DateTable, number: u64) -> Result<(), AllocError> {
    table.reserve()?;
    if table.len() < MOST_INCARNATIONS {
        table.push(date_of(number));
    }
    Ok(())
}

/// Changes the date of an incarnation that is there.
fn change(table: &mut DateTable, inc: u32, number: u64) {
    if inc > 0 && u64::from(inc) <= table.len() {
        table.set(inc, date_of(number));
    }
}

/// A table of these dates.
fn table_of(alloc: Global, numbers: &[u64]) -> Result<DateTable, AllocError> {
    let mut table = DateTable::new(alloc);
    for number in numbers {
        add(&mut table, *number)?;
    }
    Ok(table)
}

/// Eighteen incarnations. Shard 0 has 8 and 16, shard 1 has 1, 9 and 17, shard 2 has 2, 10 and 18.
const DATES: [u64; 18] = [50, 0, 7, 0, 0, 0, 0, 90, 40, 30, 0, 0, 0, 0, 0, 20, 0, 10];

fn founds(alloc: Global) -> Result<[Option<u32>; 9], AllocError> {
    let table = table_of(alloc, &DATES)?;
    Ok([
        table.first_come(2, 29),
        table.first_come(2, 30),
        table.first_come(2, 9),
        table.first_come(0, 19),
        table.first_come(0, 20),
        table.first_come(0, 90),
        table.first_come(1, 49),
        table.first_come(1, 50),
        table.first_come(4, u64::MAX),
    ])
}

#[test]
fn the_first_of_a_shard_is_found(rt: HostRuntime) -> Result<(), Fail> {
    assert_eq!(rt;
        founds(rt.alloc())?,
        [
            Some(18),
            Some(10),
            None,
            None,
            Some(16),
            Some(8),
            Some(9),
            Some(1),
            None
        ]
    );
    Ok(())
}

fn founds_at_the_end(alloc: Global) -> Result<[Option<u32>; 4], AllocError> {
    let mut table = table_of(alloc, &DATES)?;
    change(&mut table, 11, u64::MAX - 1);
    let before = table.first_come(3, u64::MAX);
    change(&mut table, 3, 0);
    Ok([
        before,
        table.first_come(3, u64::MAX),
        table.first_come(3, u64::MAX - 1),
        table.first_come(3, u64::MAX - 2),
    ])
}

#[test]
fn none_never_comes(rt: HostRuntime) -> Result<(), Fail> {
    assert_eq!(rt;
        founds_at_the_end(rt.alloc())?,
        [Some(3), Some(11), Some(11), None]
    );
    Ok(())
}

fn dates_read(alloc: Global) -> Result<[Option<u64>; 5], AllocError> {
    let mut table = table_of(alloc, &DATES)?;
    change(&mut table, 16, 21);
    Ok([
        table.get(0),
        table.get(1),
        table.get(16),
        table.get(17),
        table.get(19),
    ])
}

#[test]
fn dates_are_read(rt: HostRuntime) -> Result<(), Fail> {
    assert_eq!(rt;
        dates_read(rt.alloc())?,
        [None, Some(50), Some(21), None, None]
    );
    Ok(())
}

/// Whether each of a hundred incarnations, with ten times its number as its date, is found as the first of its shard once
/// those before it have none.
fn are_found_in_turn(alloc: Global) -> Result<bool, AllocError> {
    let mut table = DateTable::new(alloc);
    for inc in 1..=100 {
        add(&mut table, 10 * inc)?;
    }
    let mut all = true;
    for inc in 1..=100 {
        let found = table.first_come((inc % 8) as u8, 10 * u64::from(inc));
        all = all && found == Some(inc);
        change(&mut table, inc, 0);
    }
    Ok(all)
}

#[test]
fn each_of_many_is_found(rt: HostRuntime) -> Result<(), Fail> {
    assert_eq!(rt; are_found_in_turn(rt.alloc())?, true);
    Ok(())
}
