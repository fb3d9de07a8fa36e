//! Makes a ledger of decided entries, and asks it over and over, for bench/ to time.
//! `ledger_times WORK DECIDED ROUNDS [timed]`: WORK is `due`, where the first due entry is asked for beside one that is
//! due, or `end` or `lose`, where in each round an entry is entered, begun and ended, or its attempt lost, or `counts`,
//! where the numbers of all entries are asked for beside a thousand that are not decided. `undecided` asks for these
//! with so many that are not decided, each of an incarnation of its own. It prints a sum of what was answered, or with `timed` the
//! nanoseconds of the questions, the ends or the losses.
#![tactic(auto)]

mod lives;

use anyhow::bail;
use ledger_rows::Ledger;
use lives::{begun, ended, entered};
use sched_plain::Moment;
use std::env;
use std::time::Instant;

const USAGE: &str = "usage: ledger_times due|end|lose|counts|undecided ENTRIES ROUNDS [timed]";

/// The incarnation whose entries they are.
const INC: u32 = 1;

/// A ledger of so many decided entries.
fn decided(rt: &HostRuntime, count: u64) -> anyhow::Result<Ledger> {
    let mut ledger = Ledger::new(rt.alloc());
    for instant in 0..count {
        entered(rt.alloc(), &mut ledger, INC, instant)?;
        begun(&mut ledger, INC, instant)?;
        ended(&mut ledger, INC, instant)?;
    }
    Ok(ledger)
}

/// Asks for the first due entry: a sum of the answers, and the nanoseconds.
fn ask(rt: &HostRuntime, count: u64, rounds: u64) -> anyhow::Result<(u64, u128)> {
    let mut ledger = decided(rt, count)?;
    entered(rt.alloc(), &mut ledger, INC, count)?;
    let mut sum: u64 = 0;
    let start = Instant::now(rt)?;
    for _ in 0..rounds {
        if let Some((_, instant)) = ledger.first_due(1, Moment(count)) {
            sum = sum.wrapping_add(instant);
        }
    }
    Ok((sum, start.elapsed(rt)?.as_nanos()))
}

/// Enters, begins and ends an entry: how many, and the nanoseconds of the ends.
fn end(rt: &HostRuntime, count: u64, rounds: u64) -> anyhow::Result<(u64, u128)> {
    let mut ledger = decided(rt, count)?;
    let mut spent: u128 = 0;
    for round in 0..rounds {
        let instant = count.wrapping_add(round);
        entered(rt.alloc(), &mut ledger, INC, instant)?;
        begun(&mut ledger, INC, instant)?;
        let start = Instant::now(rt)?;
        ended(&mut ledger, INC, instant)?;
        spent = spent.wrapping_add(start.elapsed(rt)?.as_nanos());
    }
    Ok((rounds, spent))
}

/// Enters, begins and loses an entry: how many, and the nanoseconds of the losses.
fn lose(rt: &HostRuntime, count: u64, rounds: u64) -> anyhow::Result<(u64, u128)> {
    let mut ledger = decided(rt, count)?;
    let mut spent: u128 = 0;
    for round in 0..rounds {
        let instant = count.wrapping_add(round);
        entered(rt.alloc(), &mut ledger, INC, instant)?;
        begun(&mut ledger, INC, instant)?;
        let start = Instant::now(rt)?;
        ledger.lose(Some(1), Moment(0));
        spent = spent.wrapping_add(start.elapsed(rt)?.as_nanos());
    }
    Ok((rounds, spent))
}

/// Adds so many incarnations, each with one entry that is not decided.
fn waiting(rt: &HostRuntime, ledger: &mut Ledger, count: u64) -> anyhow::Result<()> {
    for k in 0..count {
        let inc = (k % 1_000_000_000) as u32 + INC + 1;
        entered(rt.alloc(), ledger, inc, k)?;
    }
    Ok(())
}

/// Asks for the numbers of all entries: a sum of the answers, and the nanoseconds.
fn ask_counts(rt: &HostRuntime, ledger: &Ledger, rounds: u64) -> anyhow::Result<(u64, u128)> {
    let mut sum: u64 = 0;
    let start = Instant::now(rt)?;
    for round in 0..rounds {
        let counts = ledger.counts(Moment(round));
        sum = sum.wrapping_add(counts.entries).wrapping_add(counts.due);
    }
    Ok((sum, start.elapsed(rt)?.as_nanos()))
}

/// Asks for the numbers beside so many decided entries, and a thousand that are not.
fn counts(rt: &HostRuntime, decided_ones: u64, rounds: u64) -> anyhow::Result<(u64, u128)> {
    let mut ledger = decided(rt, decided_ones)?;
    waiting(rt, &mut ledger, 1000)?;
    ask_counts(rt, &ledger, rounds)
}

/// Asks for the numbers with so many entries that are not decided, and no others.
fn undecided(rt: &HostRuntime, others: u64, rounds: u64) -> anyhow::Result<(u64, u128)> {
    let mut ledger = Ledger::new(rt.alloc());
    waiting(rt, &mut ledger, others)?;
    ask_counts(rt, &ledger, rounds)
}

/// Does what the words after the program's name say.
fn run(rt: &HostRuntime, work: &str, count: u64, rounds: u64) -> anyhow::Result<(u64, u128)> {
    match work {
        "due" => ask(rt, count, rounds),
        "end" => end(rt, count, rounds),
        "lose" => lose(rt, count, rounds),
        "counts" => counts(rt, count, rounds),
        "undecided" => undecided(rt, count, rounds),
        _ => bail!("{USAGE}"),
    }
}

fn main(rt: HostRuntime) -> anyhow::Result<()> {
    let mut words = env::args(&rt)?.skip(1);
    let (Some(work), Some(count), Some(rounds)) = (words.next(), words.next(), words.next()) else {
        bail!("{USAGE}");
    };
    let (sum, spent) = run(&rt, work.as_str(), count.parse()?, rounds.parse()?)?;
    if words.next().is_some() {
        println!(rt; "{spent}")?;
    } else {
        println!(rt; "{sum}")?;
    }
    Ok(())
}
