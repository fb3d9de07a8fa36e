//! What a book is asked: a sum of the answers, and the nanoseconds.
use crate::filling::{CREATED, name_of, step_in};
use anyhow::bail;
use plain_words::shard_of;
use sched_calls::{Read, ReadReply, Reply};
use sched_plain::{Moment, Name, SHARDS, Step, Text, Work, Write};
use std::alloc::Global;
use std::time::Instant;
use step_machine::Machine;
use write_plans::Plan;

/// How many schedules a page has.
const PAGE: u8 = 100;
/// How many names are looked for in turn.
const NAMES: u32 = 10;

/// The name of the schedule that is created with this number.
fn named(alloc: Global, inc: u32) -> anyhow::Result<Name> {
    match Name::read(alloc, name_of(alloc, inc)?.as_bytes()) {
        Ok(name) => Ok(name),
        Err(_) => bail!("no name"),
    }
}

fn group(alloc: Global) -> anyhow::Result<Name> {
    match Name::read(alloc, b"default") {
        Ok(name) => Ok(name),
        Err(_) => bail!("no name"),
    }
}

/// Which schedule has work to do, 0 where none has.
fn inc_of(work: Work) -> u32 {
    match work {
        Work::Enter { inc } | Work::Complete { inc } => inc,
        Work::Begin { inc, .. } | Work::Close { inc, .. } | Work::Live { inc, .. } => inc,
        Work::Settled => 0,
    }
}

/// Asks for the next work of a schedule's shard at a moment.
pub fn work_at<M: Machine>(
    rt: &HostRuntime,
    machine: &M,
    inc: u32,
    at: u64,
    rounds: u64,
) -> anyhow::Result<(u64, u128)> {
    let shard = shard_of(inc);
    if shard >= SHARDS {
        bail!("no shard");
    }
    let mut sum: u64 = 0;
    let start = Instant::now(rt)?;
    for _ in 0..rounds {
        let next = machine.next_work(shard, Moment(at));
        sum = sum.wrapping_add(u64::from(inc_of(next)));
    }
    Ok((sum, start.elapsed(rt)?.as_nanos()))
}

/// Asks for the next work of the busy schedule's shard, when it is due.
pub fn work<M: Machine>(
    rt: &HostRuntime,
    machine: &M,
    busy: u32,
    rounds: u64,
) -> anyhow::Result<(u64, u128)> {
    work_at(rt, machine, busy, CREATED, rounds)
}

/// The update of the first schedule.
fn an_update(alloc: Global) -> anyhow::Result<Write> {
    let name = name_of(alloc, 1)?;
    let words = format!(in alloc; "{CREATED} update {name}; rate(1 hours)")?;
    match step_in(alloc, words.as_str())? {
        Step::Change { write, .. } => Ok(write),
        _ => bail!("no write"),
    }
}

/// 1 where the write is ready to be made.
fn planned<M: Machine>(machine: &M, write: &Write) -> anyhow::Result<u64> {
    match machine.plan_write(write, Moment(CREATED))? {
        Plan::Ready(_) => Ok(1),
        _ => Ok(0),
    }
}

/// Asks what is to be done with an update.
pub fn plan<M: Machine>(rt: &HostRuntime, machine: &M, rounds: u64) -> anyhow::Result<(u64, u128)> {
    let write = an_update(rt.alloc())?;
    let mut sum: u64 = 0;
    let start = Instant::now(rt)?;
    for _ in 0..rounds {
        sum = sum.wrapping_add(planned(machine, &write)?);
    }
    Ok((sum, start.elapsed(rt)?.as_nanos()))
}

/// How many schedules an answer shows.
fn shown<M: Machine>(machine: &M, read: &Read) -> anyhow::Result<u64> {
    match machine.reply(read)? {
        Ok(Reply::Read(ReadReply::Schedule { .. })) => Ok(1),
        Ok(Reply::Read(ReadReply::Schedules(page))) => Ok(page.rows.len() as u64),
        _ => Ok(0),
    }
}

/// The reads of the first schedule, the last one, and some between, as far apart.
fn reads_of(alloc: Global, schedules: u32) -> anyhow::Result<Vec<Read>> {
    let mut reads = Vec::new(alloc);
    for place in 0..NAMES {
        let inc = place.saturating_mul(schedules / NAMES).saturating_add(1);
        let group = group(alloc)?;
        let name = named(alloc, inc)?;
        reads.push(Read::Schedule { group, name })?;
    }
    Ok(reads)
}

/// How many schedules the answer to a read shows, 0 where there is no read.
fn shown_perhaps<M: Machine>(machine: &M, read: Option<&Read>) -> anyhow::Result<u64> {
    match read {
        Some(read) => shown(machine, read),
        None => Ok(0),
    }
}

/// Asks for schedules by name.
pub fn get<M: Machine>(
    rt: &HostRuntime,
    machine: &M,
    schedules: u32,
    rounds: u64,
) -> anyhow::Result<(u64, u128)> {
    let reads = reads_of(rt.alloc(), schedules)?;
    let mut sum: u64 = 0;
    let start = Instant::now(rt)?;
    for round in 0..rounds {
        let read = reads.get((round % u64::from(NAMES)) as usize);
        sum = sum.wrapping_add(shown_perhaps(machine, read)?);
    }
    Ok((sum, start.elapsed(rt)?.as_nanos()))
}

/// The read of a page behind a schedule.
fn page_behind(alloc: Global, inc: u32) -> anyhow::Result<Read> {
    let group = group(alloc)?;
    let name = named(alloc, inc)?;
    Ok(Read::Schedules {
        group: None,
        prefix: Text::from_string(String::new(alloc)),
        enabled: None,
        after: Some((group, name)),
        max: PAGE,
    })
}

/// Asks for a page behind the middle schedule.
pub fn page<M: Machine>(
    rt: &HostRuntime,
    machine: &M,
    schedules: u32,
    rounds: u64,
) -> anyhow::Result<(u64, u128)> {
    let read = page_behind(rt.alloc(), schedules / 2)?;
    let mut sum: u64 = 0;
    let start = Instant::now(rt)?;
    for _ in 0..rounds {
        sum = sum.wrapping_add(shown(machine, &read)?);
    }
    Ok((sum, start.elapsed(rt)?.as_nanos()))
}

/// Asks for the numbers of a report.
pub fn counts<M: Machine>(
    rt: &HostRuntime,
    machine: &M,
    rounds: u64,
) -> anyhow::Result<(u64, u128)> {
    let mut sum: u64 = 0;
    let start = Instant::now(rt)?;
    for _ in 0..rounds {
        let counts = machine.counts(Moment(CREATED));
        sum = sum.wrapping_add(counts.schedules);
    }
    Ok((sum, start.elapsed(rt)?.as_nanos()))
}
