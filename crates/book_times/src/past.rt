//! Work over a schedule that occurs each minute: what a long past costs, and what an Enter of many occurrences does.
use crate::filling::{CREATED, fill, step_in, taken};
use crate::questions::work_at;
use crate::turns::{due_in, sweep_one};
use plain_words::shard_of;
use std::alloc::Global;
use std::time::Instant;
use step_machine::Machine;
use step_scripts::Replies;

/// The one schedule.
const BUSY: u32 = 1;
/// How many occurrences one Enter has.
const MOST_PAIRS: u64 = 256;
/// The word that chooses the last second of a window of a day, so that nothing entered is sent on that day.
const LAST_WORD: u64 = 86_399;

/// Decides so many occurrences, and then asks for the next work of the shard, where nothing is left: a sum, and the nanoseconds.
pub fn settled<M: Machine>(
    rt: &HostRuntime,
    machine: &mut M,
    entries: u32,
    rounds: u64,
) -> anyhow::Result<(u64, u128)> {
    fill(machine, rt.alloc(), BUSY)?;
    let replies = Replies {
        word: 0,
        status: 200,
    };
    let at = due_in(u64::from(entries));
    sweep_one(machine, rt.alloc(), shard_of(BUSY), at, replies)?;
    work_at(rt, machine, BUSY, at, rounds)
}

/// Creates a schedule of a cron that fits each minute, in UTC or New York.
fn create_minutely<M: Machine>(machine: &mut M, alloc: Global, zoned: bool) -> anyhow::Result<()> {
    taken(machine, step_in(alloc, "0 boot")?)?;
    if !zoned {
        let words = format!(in alloc; "{CREATED} create busy; cron(* * * * ? *); window 1440")?;
        return taken(machine, step_in(alloc, words.as_str())?);
    }
    let zone = format!(in alloc; "{CREATED} zone America/New_York EST5EDT,M3.2.0,M11.1.0")?;
    taken(machine, step_in(alloc, zone.as_str())?)?;
    let words = format!(in alloc;
        "{CREATED} create busy; cron(* * * * ? *); window 1440; zone America/New_York"
    )?;
    taken(machine, step_in(alloc, words.as_str())?)
}

/// Sweeps that enter 256 occurrences each, at most five on the first day, and send nothing: how many steps, and the nanoseconds.
pub fn minutely<M: Machine>(
    rt: &HostRuntime,
    machine: &mut M,
    rounds: u64,
    zoned: bool,
) -> anyhow::Result<(u64, u128)> {
    create_minutely(machine, rt.alloc(), zoned)?;
    let before = machine.length();
    let start = Instant::now(rt)?;
    for round in 0..rounds.min(5) {
        let at = due_in(round.saturating_add(1).saturating_mul(MOST_PAIRS)).saturating_sub(60);
        let replies = Replies {
            word: LAST_WORD,
            status: 200,
        };
        sweep_one(machine, rt.alloc(), shard_of(BUSY), at, replies)?;
    }
    let spent = start.elapsed(rt)?.as_nanos();
    Ok((machine.length().wrapping_sub(before), spent))
}
