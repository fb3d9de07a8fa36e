//! Appends to a journal and reads one, for bench/ to time, and does the same by bare calls of the machine.
//! `journal_times append PATH COUNT` makes a journal and appends COUNT records of 24 bytes; `bare PATH COUNT` makes the
//! two writes and two syncs of each and nothing else. `make PATH BYTES LENGTH` writes a journal of about BYTES bytes, of
//! records of LENGTH bytes each; `read PATH` reads it record by record, `plain PATH` block by block. Each prints how much
//! it did.
#![tactic(auto)]

mod bare;
mod journals;

use anyhow::bail;
use std::env;

const USAGE: &str =
    "usage: journal_times append PATH COUNT | bare PATH COUNT | make PATH BYTES LENGTH | read PATH | plain PATH";

/// Does what the words after the program's name say.
fn run(rt: &HostRuntime, words: &[String]) -> anyhow::Result<u64> {
    match words {
        [what, path] if what.as_str() == "read" => journals::read(rt, path.as_str()),
        [what, path] if what.as_str() == "plain" => bare::read(rt, path.as_str()),
        [what, path, count] if what.as_str() == "append" => {
            journals::append(rt, path.as_str(), count.parse()?)
        }
        [what, path, count] if what.as_str() == "bare" => {
            bare::append(rt, path.as_str(), count.parse()?)
        }
        [what, path, bytes, length] if what.as_str() == "make" => {
            bare::make(rt, path.as_str(), bytes.parse()?, length.parse()?)
        }
        _ => bail!("{USAGE}"),
    }
}

fn main(rt: HostRuntime) -> anyhow::Result<()> {
    let mut words = Vec::new(rt.alloc());
    for word in env::args(&rt)?.skip(1) {
        words.push(word)?;
    }
    let done = run(&rt, words.as_slice())?;
    println!(rt; "{done}")?;
    Ok(())
}
