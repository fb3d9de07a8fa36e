//! Reads, writes or copies one record over and over, for bench/ to time. It prints a checksum, so that nothing can be left
//! out.
//! `codec_times WORK CASE COUNT`: WORK is `read`, `write` or `copy`, CASE is `begin`, `enter`, `change` or `largest`. It
//! does the work COUNT times; with `size` for WORK it prints how many bytes the payload has.
#![tactic(auto)]

ghost use Rattle.sched_plain.specs.Validity.{IsValid};

mod samples;

use anyhow::{Context, bail};
use sched_plain::Step;
use std::alloc::Global;
use std::env;
use step_codec::{FrameBuf, read_step, write_step};

const USAGE: &str = "usage: codec_times read|write|copy|size begin|enter|change|largest COUNT";

fn reads(alloc: Global, payload: &[u8], count: u32) -> anyhow::Result<u64> {
    let mut sum: u64 = 0;
    for _ in 0..count {
        if read_step(alloc, payload).is_ok() {
            sum = sum.wrapping_add(1);
        }
    }
    Ok(sum)
}

fn writes(alloc: Global, payload: &[u8], count: u32) -> anyhow::Result<u64> {
    let mut buffer = FrameBuf::new(alloc)?;
    match read_step(alloc, payload) {
        Ok(step) => Ok(write_often(&step, &mut buffer, count)),
        Err(_) => bail!("the payload is none"),
    }
}

fn write_often(step: &Step, buffer: &mut FrameBuf, count: u32) -> u64
    requires { IsValid step.now }
{
    let mut sum: u64 = 0;
    for _ in 0..count {
        write_step(step, buffer);
        sum = sum.wrapping_add(buffer.as_bytes().len() as u64);
    }
    sum
}

fn copies(alloc: Global, payload: &[u8], count: u32) -> anyhow::Result<u64> {
    let mut buffer = Vec::with_capacity(alloc, payload.len())?;
    let mut sum: u64 = 0;
    for _ in 0..count {
        buffer.clear();
        buffer.extend_from_slice(payload)?;
        sum = sum.wrapping_add(buffer.len() as u64);
    }
    Ok(sum)
}

fn main(rt: HostRuntime) -> anyhow::Result<()> {
    let mut words = env::args(&rt)?.skip(1);
    let (Some(work), Some(case), Some(count)) = (words.next(), words.next(), words.next()) else {
        bail!("{USAGE}");
    };
    let count: u32 = count.as_str().parse()?;
    let payload = samples::payload_of(rt.alloc(), case.as_str())?.context("no such case")?;
    let sum = match work.as_str() {
        "read" => reads(rt.alloc(), payload.as_slice(), count)?,
        "write" => writes(rt.alloc(), payload.as_slice(), count)?,
        "copy" => copies(rt.alloc(), payload.as_slice(), count)?,
        "size" => payload.len() as u64,
        _ => bail!("{USAGE}"),
    };
    println!(rt; "{sum}")?;
    Ok(())
}
