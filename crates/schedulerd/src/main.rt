//! The scheduler's program: hands its words, its standard streams, its zones, a picker and a link to the top call.
//!
//! `schedulerd JOURNAL ZONES batch` answers the requests of standard input on standard output, and sends what is due
//! to targets on loopback. ZONES is the folder of zone files; JOURNAL names the journal's file, which is not opened yet.
//! Nothing goes to standard error.
#![tactic(auto)]

use http_wire::{RealSink, RealSource};
use policy_rules::PcgPicker;
use sched_top::run_words;
use std::alloc::Global;
use std::io::ErrorKind;
use std::process::ExitCode;
use std::time::SystemTime;
use std::{env, io};
use target_link::TcpLink;
use zone_occ::FolderZones;

/// Where ZONES stands among the words, behind the program's name and JOURNAL.
const ZONES: usize = 2;

/// Where the command begins.
const COMMAND: usize = 3;

/// A word is not UTF-8, or one is missing.
const FAULTY_WORDS: u8 = 2;

/// Memory was wanted before the first request.
const OUT_OF_MEMORY: u8 = 7;

/// The words of the command line, the program's name first, or the status to end with.
fn words_of(rt: &HostRuntime) -> Result<Vec<String>, u8> {
    match env::args(rt) {
        Ok(words) => words.collect(rt.alloc()).map_err(|_| OUT_OF_MEMORY),
        Err(error) if error.kind() == ErrorKind::OutOfMemory => Err(OUT_OF_MEMORY),
        Err(_) => Err(FAULTY_WORDS),
    }
}

/// The words behind the leading ones.
fn command_of(alloc: Global, words: &[String]) -> Result<Vec<&str>, u8> {
    let mut command = Vec::new(alloc);
    for word in words.iter().skip(COMMAND) {
        command.push(word.as_str()).map_err(|_| OUT_OF_MEMORY)?;
    }
    Ok(command)
}

/// The folder of zone files that the words name.
fn folder_of(alloc: Global, words: &[String]) -> Result<String, u8> {
    match words.get(ZONES) {
        Some(folder) => String::from_str(alloc, folder.as_str()).map_err(|_| OUT_OF_MEMORY),
        None => Err(FAULTY_WORDS),
    }
}

/// What the picker is seeded with: the nanoseconds of the clock, or 0 where no clock answers.
fn seed(rt: &HostRuntime) -> u64 {
    let Ok(now) = SystemTime::now(rt) else {
        return 0;
    };
    match now.duration_since(SystemTime::UNIX_EPOCH) {
        Ok(since) => (since.as_nanos() % (1 << 64)) as u64,
        Err(_) => 0,
    }
}

/// Runs the command over the standard streams, and returns the exit status.
fn run(rt: &HostRuntime) -> Result<u8, u8> {
    let words = words_of(rt)?;
    let command = command_of(rt.alloc(), &words)?;
    let folder = folder_of(rt.alloc(), &words)?;
    let handle = rt.clone().map_err(|_| OUT_OF_MEMORY)?;
    let mut zones = FolderZones::new(handle, folder);
    let mut source = RealSource::new(rt.alloc(), rt.reader()).map_err(|_| OUT_OF_MEMORY)?;
    let mut sink = RealSink::new(io::writer(rt));
    let mut picker = PcgPicker::new(seed(rt));
    let mut link = TcpLink::new(rt);
    Ok(run_words(
        rt.alloc(),
        &command,
        &mut source,
        &mut sink,
        &mut zones,
        &mut picker,
        &mut link,
    ))
}

fn main(rt: HostRuntime) -> ExitCode {
    match run(&rt) {
        Ok(status) => ExitCode::from(status),
        Err(status) => ExitCode::from(status),
    }
}
