//! Makes a book of many schedules, and gives it the same work over and over, for bench/ to time.
//! `book_times WORK SCHEDULES ROUNDS [timed]`: WORK is `sweep` or `close`, where in each round an occurrence of one schedule is
//! due and its shard is swept, and the target answers 200 or 500; `enter`, an Enter of one pair; `update`, a Change of one
//! schedule; `work`, the next work of a shard; `plan`, what is to be done with an update; `get`, a schedule by name; `page`, 100
//! schedules behind the middle one; or `counts`, the numbers of a report. `settled` takes decided entries in the place of schedules,
//! and asks for the next work behind them; `minutely` and `zoned` are at most five sweeps, each with an Enter of 256 occurrences. It prints a sum of what was answered, or with `timed`
//! the nanoseconds of the work.
#![tactic(auto)]

mod filling;
mod past;
mod questions;
mod turns;

use anyhow::bail;
use book_core::Book;
use filling::fill;
use past::{minutely, settled};
use questions::{counts, get, page, plan, work};
use std::env;
use step_machine::Machine;
use turns::{enter, sweep, update};

const USAGE: &str =
    "usage: book_times sweep|close|enter|update|work|plan|get|page|counts|settled|minutely|zoned SCHEDULES ROUNDS [timed]";

/// Does what the words after the program's name say with a machine of many schedules.
fn work_among<M: Machine>(
    rt: &HostRuntime,
    machine: &mut M,
    task: &str,
    schedules: u32,
    rounds: u64,
) -> anyhow::Result<(u64, u128)> {
    fill(machine, rt.alloc(), schedules)?;
    match task {
        "sweep" => sweep(rt, machine, schedules, rounds, 200),
        "close" => sweep(rt, machine, schedules, rounds, 500),
        "enter" => enter(rt, machine, schedules, rounds),
        "update" => update(rt, machine, rounds),
        "work" => work(rt, machine, schedules, rounds),
        "plan" => plan(rt, machine, rounds),
        "get" => get(rt, machine, schedules, rounds),
        "page" => page(rt, machine, schedules, rounds),
        "counts" => counts(rt, machine, rounds),
        _ => bail!("{USAGE}"),
    }
}

/// Does what the words say with a machine of an empty history.
fn work_on<M: Machine>(
    rt: &HostRuntime,
    machine: &mut M,
    task: &str,
    many: u32,
    rounds: u64,
) -> anyhow::Result<(u64, u128)> {
    match task {
        "settled" => settled(rt, machine, many, rounds),
        "minutely" => minutely(rt, machine, rounds, false),
        "zoned" => minutely(rt, machine, rounds, true),
        _ => work_among(rt, machine, task, many, rounds),
    }
}

fn main(rt: HostRuntime) -> anyhow::Result<()> {
    let mut words = env::args(&rt)?.skip(1);
    let (Some(task), Some(schedules), Some(rounds)) = (words.next(), words.next(), words.next())
    else {
        bail!("{USAGE}");
    };
    let mut book = Book::new(rt.alloc())?;
    let (sum, spent) = work_on(
        &rt,
        &mut book,
        task.as_str(),
        schedules.parse()?,
        rounds.parse()?,
    )?;
    if words.next().is_some() {
        println!(rt; "{spent}")?;
    } else {
        println!(rt; "{sum}")?;
    }
    Ok(())
}
