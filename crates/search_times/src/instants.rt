//! Searches for instants in New York.
ghost use Rattle.std.specs.Prelude.{◌≤◌};
ghost use Rattle.plain_words.specs.Moments.{last_moment};

use anyhow::bail;
use expressions::{CronSets, Expr};
use plain_words::LAST_MOMENT;
use std::alloc::Global;
use zone_occ::{Zone, next_after, occurrences};

/// The rule of New York.
const NEW_YORK: &[u8] = b"EST5EDT,M3.2.0,M11.1.0";

/// 2024-01-01T05:00:00Z, when 2023 has just ended in New York.
const FIRST_START: u64 = 1_704_085_200;

/// How far the starts are apart: a day and 13 seconds.
const STEP: u64 = 86_413;

/// How many starts there are, over some twenty years.
const START_COUNT: u64 = 7_300;

fn new_york(alloc: Global) -> anyhow::Result<Zone> {
    match Zone::read(alloc, NEW_YORK) {
        Ok(zone) => Ok(zone),
        Err(fault) => bail!("no zone: {fault:?}"),
    }
}

/// How the starts of searches are spread.
#[derive(Clone, Copy)]
pub enum Spread {
    /// Each at another moment.
    Apart,
    /// All of them when 2023 has just ended.
    AfterTheYear,
}

/// Where the k-th search starts.
fn start(k: u32, spread: Spread) -> u64
    ensures { result ≤ last_moment }
{
    match spread {
        Spread::Apart => FIRST_START + k as u64 % START_COUNT * STEP,
        Spread::AfterTheYear => FIRST_START,
    }
}

/// The sum of the next instants, and 1 for each search without an answer.
pub fn next_checksum(
    alloc: Global,
    sets: CronSets,
    spread: Spread,
    count: u32,
) -> anyhow::Result<u64> {
    let zone = new_york(alloc)?;
    let expr = Expr::Cron(sets);
    let mut sum: u64 = 0;
    for k in 0..count {
        let answer = next_after(&expr, &zone, 0, start(k, spread)).unwrap_or(1);
        sum = sum.wrapping_add(answer);
    }
    Ok(sum)
}

/// The sum of how far the batches of `max` instants are complete, and of their lengths.
pub fn batch_checksum(
    alloc: Global,
    sets: CronSets,
    spread: Spread,
    max: u16,
    count: u32,
) -> anyhow::Result<u64>
    requires { 1 ≤ max }
{
    let zone = new_york(alloc)?;
    let expr = Expr::Cron(sets);
    let mut sum: u64 = 0;
    for k in 0..count {
        let batch = occurrences(alloc, &expr, &zone, 0, start(k, spread), LAST_MOMENT, max)?;
        sum = sum.wrapping_add(batch.complete_to);
        sum = sum.wrapping_add(batch.instants.len() as u64);
    }
    Ok(sum)
}
