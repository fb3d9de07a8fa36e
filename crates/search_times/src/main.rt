//! Searches over and over, for bench/ to time, each from another start. It prints a checksum of the
//! answers.
//! `search_times CASE COUNT` makes COUNT searches for the next fitting minute of the sets of CASE,
//! `search_times next CASE COUNT` for their next instant in New York, and
//! `search_times batch CASE MAX COUNT` for their first MAX instants there.
#![tactic(auto)]

mod cases;
mod instants;
mod starts;

use anyhow::{Context, bail};
use cron_search::next_civil;
use expressions::CronSets;
use instants::Spread;
use std::alloc::Global;
use std::env;

const USAGE: &str = "usage: search_times CASE COUNT | next CASE COUNT | batch CASE MAX COUNT";

/// The sum of the answers as numbers, and 1 for each search without an answer, so that no search can
/// be left out.
fn checksum(sets: &CronSets, count: u32) -> u64 {
    let mut sum: u64 = 0;
    for k in 0..count {
        let answer = match next_civil(sets, starts::start(k)) {
            Some(minute) => starts::number_of(minute),
            None => 1,
        };
        sum = sum.wrapping_add(answer);
    }
    sum
}

fn sets_of(case: &str) -> anyhow::Result<CronSets> {
    cases::sets_of(case).context("no such case")
}

/// Where the searches of a case start: sets of 2023 alone are searched when it is over.
fn spread_of(case: &str) -> Spread {
    if case == "ended" {
        Spread::AfterTheYear
    } else {
        Spread::Apart
    }
}

fn next_minutes(case: &str, count: &str) -> anyhow::Result<u64> {
    Ok(checksum(&sets_of(case)?, count.parse()?))
}

fn next_instants(alloc: Global, case: &str, count: &str) -> anyhow::Result<u64> {
    instants::next_checksum(alloc, sets_of(case)?, spread_of(case), count.parse()?)
}

fn batches(alloc: Global, case: &str, max: &str, count: &str) -> anyhow::Result<u64> {
    let max: u16 = max.parse()?;
    if max == 0 {
        bail!("MAX is at least 1");
    }
    instants::batch_checksum(alloc, sets_of(case)?, spread_of(case), max, count.parse()?)
}

fn main(rt: HostRuntime) -> anyhow::Result<()> {
    let mut words = env::args(&rt)?.skip(1);
    let (Some(first), Some(second)) = (words.next(), words.next()) else {
        bail!("{USAGE}");
    };
    let sum = match (words.next(), words.next()) {
        (None, _) => next_minutes(first.as_str(), second.as_str())?,
        (Some(count), None) if first.as_str() == "next" => {
            next_instants(rt.alloc(), second.as_str(), count.as_str())?
        }
        (Some(max), Some(count)) if first.as_str() == "batch" => {
            batches(rt.alloc(), second.as_str(), max.as_str(), count.as_str())?
        }
        _ => bail!("{USAGE}"),
    };
    println!(rt; "{sum}")?;
    Ok(())
}
