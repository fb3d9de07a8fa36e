//! Has threads take turns at a desk, for bench/ to time.
//! `desk_times THREADS TURNS MILLISECONDS`: 1, 2, 4 or 8 threads, each with so many turns, each of which is kept for so long. It
//! prints how many turns were had.
#![tactic(auto)]

ghost use Rattle.std.specs.Prelude.{◌≡◌, IfOk};
ghost use Rattle.turn_desk.specs.Seats.{IsFree};

mod crowd;
mod turns;

use anyhow::bail;
use crowd::{eight, four, two};
use std::alloc::Global;
use std::env;
use std::sync::Wait;
use std::thread::Threads;
use std::time::Clock;
use turn_desk::{Desk, Seat};
use turns::{Log, Work, write_often};

const USAGE: &str = "usage: desk_times 1|2|4|8 TURNS MILLISECONDS";

fn among<R: Threads + Wait + Clock + Sync>(
    rt: &R,
    desk: &Desk<Log>,
    seat: Seat<Log>,
    threads: u64,
    work: Work,
) -> anyhow::Result<Seat<Log>>
    requires desk { seat.place.table_id ≡ desk.now.table.shared.table_id }
    requires free { IsFree seat.place }
    ensures { IfOk result (λ seat. (seat.place.table_id ≡ desk.now.table.shared.table_id) × IsFree seat.place) }
{
    match threads {
        1 => Ok(write_often(rt, desk, seat, work)),
        2 => Ok(two(rt, desk, seat, work)),
        4 => Ok(four(rt, desk, seat, work)),
        8 => Ok(eight(rt, desk, seat, work)),
        _ => bail!("{USAGE}"),
    }
}

/// The log after all threads had their turns.
fn written<R: Threads + Wait + Clock + Sync>(
    rt: &R,
    alloc: Global,
    threads: u64,
    work: Work,
) -> anyhow::Result<Log> {
    let log = Log {
        turns: Vec::new(alloc),
    };
    let Ok((desk, seat)) = Desk::new(alloc, log) else {
        bail!("no memory")
    };
    let mut seat = among(rt, &desk, seat, threads, work)?;
    Ok(desk.enter(rt, &mut seat).keep())
}

fn main(rt: HostRuntime) -> anyhow::Result<()> {
    let mut words = env::args(&rt)?.skip(1);
    let (Some(threads), Some(turns), Some(millis)) = (words.next(), words.next(), words.next())
    else {
        bail!("{USAGE}");
    };
    let work = Work {
        turns: turns.parse::<u64>()?,
        millis: millis.parse::<u64>()?,
    };
    let log = written(&rt, rt.alloc(), threads.parse::<u64>()?, work)?;
    let count = log.turns.len();
    println!(rt; "{count}")?;
    Ok(())
}
