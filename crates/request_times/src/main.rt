//! Reads the call of one request over and over, for bench/ to time.
//! `request_times read CASE COUNT`: CASE is `usual`, a creation as boto3 sends it; `longest`, whose body is as long as one may
//! be; `members`, whose body has as many members; or `pairs`, whose query has as many pairs. It prints how many calls were found.
//! With `size` for `read` it prints how many bytes target and body have.
#![tactic(auto)]

mod samples;

use anyhow::{Context, bail};
use http_wire::HttpRequest;
use request_calls::{decode, moment_of};
use std::alloc::Global;
use std::env;

const USAGE: &str = "usage: request_times read|size usual|longest|members|pairs COUNT";

/// Whether the request tells its moment.
fn has_moment(alloc: Global, request: &HttpRequest) -> bool {
    moment_of(alloc, request).is_ok()
}

/// Whether the request has a call.
fn has_call(alloc: Global, request: &HttpRequest) -> bool {
    decode(alloc, request, true).is_ok()
}

/// How many calls were found in so many rounds.
fn calls(alloc: Global, request: &HttpRequest, count: u32) -> u64 {
    let mut sum: u64 = 0;
    for _ in 0..count {
        if has_moment(alloc, request) && has_call(alloc, request) {
            sum = sum.wrapping_add(1);
        }
    }
    sum
}

/// How many bytes the target and the body have.
fn size_of(request: &HttpRequest) -> u64 {
    let target = request.target.as_bytes().len() as u64;
    target.wrapping_add(request.body.as_bytes().len() as u64)
}

fn main(rt: HostRuntime) -> anyhow::Result<()> {
    let mut words = env::args(&rt)?.skip(1);
    let (Some(work), Some(case), Some(count)) = (words.next(), words.next(), words.next()) else {
        bail!("{USAGE}");
    };
    let count: u32 = count.as_str().parse()?;
    let request = samples::request_of(rt.alloc(), case.as_str())?.context("no such case")?;
    let sum = match work.as_str() {
        "read" => calls(rt.alloc(), &request, count),
        "size" => size_of(&request),
        _ => bail!("{USAGE}"),
    };
    println!(rt; "{sum}")?;
    Ok(())
}
