//! What rows are asked: a sum of the answers, and the nanoseconds.
use crate::rows::{filled, grouped, name_of, text_of};
use sched_plain::{Moment, Name, Text};
use sched_rows::Rows;
use std::alloc::Global;
use std::time::Instant;

/// How many rows a page has.
const PAGE: u8 = 50;
/// How many names are looked for in turn.
const NAMES: u64 = 10;

/// The names that are looked for, one in each round.
fn names(alloc: Global) -> anyhow::Result<Vec<Name>> {
    let mut names = Vec::new(alloc);
    for number in 0..NAMES {
        let text = format!(in alloc; "s{number:05}")?;
        names.push(name_of(alloc, text.as_str())?)?;
    }
    Ok(names)
}

/// The incarnation of a schedule, 0 where there is none.
fn inc_of(rows: &Rows, group: &Name, name: Option<&Name>) -> u64 {
    match name {
        Some(name) => rows.live(group, name).unwrap_or(0) as u64,
        None => 0,
    }
}

/// When a group was created, 1 where it is not there.
fn created_of(rows: &Rows, name: Option<&Name>) -> u64 {
    match name {
        Some(name) => rows.group(name).unwrap_or(Moment(1)).0,
        None => 0,
    }
}

/// Looks for schedules by their names.
pub fn get(rt: &HostRuntime, count: u64, rounds: u64) -> anyhow::Result<(u64, u128)> {
    let rows = filled(rt.alloc(), count)?;
    let group = name_of(rt.alloc(), "second")?;
    let names = names(rt.alloc())?;
    let mut sum: u64 = 0;
    let start = Instant::now(rt)?;
    for round in 0..rounds {
        sum = sum.wrapping_add(inc_of(&rows, &group, names.get((round % NAMES) as usize)));
    }
    Ok((sum, start.elapsed(rt)?.as_nanos()))
}

/// Looks for groups by their names.
pub fn group(rt: &HostRuntime, count: u64, rounds: u64) -> anyhow::Result<(u64, u128)> {
    let rows = grouped(rt.alloc(), count)?;
    let names = names(rt.alloc())?;
    let mut sum: u64 = 0;
    let start = Instant::now(rt)?;
    for round in 0..rounds {
        sum = sum.wrapping_add(created_of(&rows, names.get((round % NAMES) as usize)));
    }
    Ok((sum, start.elapsed(rt)?.as_nanos()))
}

/// How many rows a page of a group has.
fn page_of(alloc: Global, rows: &Rows, group: &Name, prefix: &Text) -> anyhow::Result<u64> {
    let page = rows.list(alloc, Some(group), prefix, None, None, PAGE)?;
    Ok(page.rows.len() as u64)
}

/// Reads the first page of the second group.
pub fn page(rt: &HostRuntime, count: u64, rounds: u64) -> anyhow::Result<(u64, u128)> {
    let rows = filled(rt.alloc(), count)?;
    let group = name_of(rt.alloc(), "second")?;
    let prefix = text_of(rt.alloc(), "s0")?;
    let mut sum: u64 = 0;
    let start = Instant::now(rt)?;
    for _ in 0..rounds {
        sum = sum.wrapping_add(page_of(rt.alloc(), &rows, &group, &prefix)?);
    }
    Ok((sum, start.elapsed(rt)?.as_nanos()))
}
