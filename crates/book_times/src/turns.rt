//! Work that changes a book: a sum of what was done, and the nanoseconds.
use crate::filling::{CREATED, name_of, step_in, taken};
use anyhow::bail;
use plain_words::shard_of;
use sched_plain::{Moment, SHARDS};
use std::alloc::Global;
use std::time::Instant;
use step_machine::Machine;
use step_scripts::{Replies, Swept, sweep_shard};

/// How far apart the occurrences of the busy schedule are, in seconds.
const MINUTE: u64 = 60;

/// When the busy schedule is due in a round.
pub fn due_in(round: u64) -> u64 {
    CREATED.saturating_add(round.saturating_mul(MINUTE))
}

/// Does all that is to be done in a shard, where the picker and the target answer so.
pub fn sweep_one<M: Machine>(
    machine: &mut M,
    alloc: Global,
    shard: u8,
    at: u64,
    replies: Replies,
) -> anyhow::Result<()> {
    if shard >= SHARDS {
        bail!("no shard");
    }
    let mut swept = Swept::NONE;
    match sweep_shard(machine, alloc, shard, Moment(at), replies, &mut swept) {
        Ok(()) => Ok(()),
        Err(_) => bail!("not to be taken"),
    }
}

/// Sweeps the shard of the busy schedule: how many steps that were, and the nanoseconds.
pub fn sweep<M: Machine>(
    rt: &HostRuntime,
    machine: &mut M,
    busy: u32,
    rounds: u64,
    status: u16,
) -> anyhow::Result<(u64, u128)> {
    let shard = shard_of(busy);
    let before = machine.length();
    let start = Instant::now(rt)?;
    for round in 0..rounds {
        let replies = Replies { word: 0, status };
        sweep_one(machine, rt.alloc(), shard, due_in(round), replies)?;
    }
    let spent = start.elapsed(rt)?.as_nanos();
    Ok((machine.length().wrapping_sub(before), spent))
}

/// Enters an occurrence of the busy schedule: how many, and the nanoseconds.
pub fn enter<M: Machine>(
    rt: &HostRuntime,
    machine: &mut M,
    busy: u32,
    rounds: u64,
) -> anyhow::Result<(u64, u128)> {
    let mut spent: u128 = 0;
    for round in 0..rounds {
        let at = due_in(round);
        let words = format!(in rt.alloc(); "{at} enter {busy} {at}")?;
        let step = step_in(rt.alloc(), words.as_str())?;
        let start = Instant::now(rt)?;
        taken(machine, step)?;
        spent = spent.wrapping_add(start.elapsed(rt)?.as_nanos());
    }
    Ok((rounds, spent))
}

/// Updates the first schedule: how many times, and the nanoseconds.
pub fn update<M: Machine>(
    rt: &HostRuntime,
    machine: &mut M,
    rounds: u64,
) -> anyhow::Result<(u64, u128)> {
    let name = name_of(rt.alloc(), 1)?;
    let words = format!(in rt.alloc(); "{CREATED} update {name}; at(2100-01-01T00:00:00)")?;
    let mut spent: u128 = 0;
    for _ in 0..rounds {
        let step = step_in(rt.alloc(), words.as_str())?;
        let start = Instant::now(rt)?;
        taken(machine, step)?;
        spent = spent.wrapping_add(start.elapsed(rt)?.as_nanos());
    }
    Ok((rounds, spent))
}
