//! Makes rows of many schedules, and asks them over and over, for bench/ to time.
//! `row_times WORK COUNT ROUNDS [timed]`: WORK is `get`, where schedules of another group are looked up by name behind COUNT
//! schedules of one, `page`, where a page of 50 is read of that other group, or `group`, where groups are looked up among
//! COUNT. It prints a sum of what was answered, or with `timed` the nanoseconds of the questions.
#![tactic(auto)]

mod questions;
mod rows;

use anyhow::bail;
use questions::{get, group, page};
use std::env;

const USAGE: &str = "usage: row_times get|group|page COUNT ROUNDS [timed]";

/// Does what the words after the program's name say.
fn run(rt: &HostRuntime, work: &str, count: u64, rounds: u64) -> anyhow::Result<(u64, u128)> {
    match work {
        "get" => get(rt, count, rounds),
        "group" => group(rt, count, rounds),
        "page" => page(rt, count, rounds),
        _ => bail!("{USAGE}"),
    }
}

fn main(rt: HostRuntime) -> anyhow::Result<()> {
    let mut words = env::args(&rt)?.skip(1);
    let (Some(work), Some(count), Some(rounds)) = (words.next(), words.next(), words.next()) else {
        bail!("{USAGE}");
    };
    let (sum, spent) = run(&rt, work.as_str(), count.parse()?, rounds.parse()?)?;
    if words.next().is_some() {
        println!(rt; "{spent}")?;
    } else {
        println!(rt; "{sum}")?;
    }
    Ok(())
}
