//! Writes the body of one reply over and over, for bench/ to time.
//! `reply_times CASE COUNT`: CASE is `created`, the arn of a schedule, `schedule`, a schedule with all that it can show, or
//! `page`, a list of 100 schedules. It prints how many bytes the bodies had together.
#![tactic(auto)]

mod samples;

use anyhow::{Context, bail};
use reply_bodies::encode;
use sched_calls::Reply;
use std::alloc::{AllocError, Global};
use std::env;

const USAGE: &str = "usage: reply_times created|schedule|page COUNT";

/// How many bytes a reply's body has.
fn length_of(alloc: Global, reply: &Reply) -> Result<u64, AllocError> {
    let body = encode(alloc, reply)?;
    Ok(body.len() as u64)
}

/// How many bytes so many bodies have together.
fn lengths(alloc: Global, reply: &Reply, count: u32) -> Result<u64, AllocError> {
    let mut sum: u64 = 0;
    for _ in 0..count {
        sum = sum.wrapping_add(length_of(alloc, reply)?);
    }
    Ok(sum)
}

fn main(rt: HostRuntime) -> anyhow::Result<()> {
    let mut words = env::args(&rt)?.skip(1);
    let (Some(case), Some(count)) = (words.next(), words.next()) else {
        bail!("{USAGE}");
    };
    let count: u32 = count.as_str().parse()?;
    let reply = samples::reply_of(rt.alloc(), case.as_str())?.context("no such case")?;
    let sum = lengths(rt.alloc(), &reply, count)?;
    println!(rt; "{sum}")?;
    Ok(())
}
