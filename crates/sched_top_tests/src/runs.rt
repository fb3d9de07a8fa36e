//! Runs of `batch` over devices in memory, from bytes to bytes. Where memory is wanted the test ends.
use crate::texts::{answer_text, attempt_text, reply_text, request_text, written_out};
use http_wire::{MemSink, MemSource};
use plain_words::{Blob, ZoneName};
use policy_rules::ListPicker;
use sched_top::run_words;
use std::alloc::{AllocError, Global};
use std::process::Abort;
use target_link::{Heard, ScriptLink, Sent};
use zone_occ::{MapZones, NamedZone};

/// What stands outside of a run.
#[derive(Clone, Copy)]
pub struct Outside {
    /// The words that the picker gives.
    pub words: &'static [u64],
    /// The statuses that the targets reply, one an attempt, a blank between two; `-` where the connection is lost, as it
    /// is behind the last one.
    pub replies: &'static str,
    /// The zones, one a line, a name and its bytes behind a blank.
    pub zones: &'static str,
    /// The numbers of the calls that ask for a zone and fail, counted from 1.
    pub failing: &'static [u64],
}

/// Nothing: no word, no reply, no zone.
pub const NOTHING: Outside = Outside {
    words: &[],
    replies: "",
    zones: "",
    failing: &[],
};

/// One attempt is answered with 200, and every other one lost.
pub const REPLIED: Outside = Outside {
    replies: "200",
    ..NOTHING
};

/// What a run gave: its status, the bytes that it wrote, what was sent, and how many words were drawn.
#[derive(Drop)]
pub struct Outcome {
    pub status: u8,
    pub output: Vec<u8>,
    pub link: ScriptLink,
    pub drawn: u64,
}

/// What comes back for one attempt.
fn heard_of(alloc: Global, status: &str) -> Result<Heard, AllocError> {
    if status == "-" {
        return Ok(Heard::Loss);
    }
    let reply = reply_text(alloc, status)?;
    Ok(Heard::Reply(Blob::from_vec(reply.as_bytes().to_vec(alloc)?)))
}

/// A link that brings these replies.
fn link_of(alloc: Global, replies: &str) -> Result<ScriptLink, AllocError> {
    let mut script = Vec::new(alloc);
    for status in replies.split_whitespace() {
        script.push(heard_of(alloc, status)?)?;
    }
    Ok(ScriptLink::new(alloc, script))
}

/// A zone of this name with these bytes.
pub fn named_zone(rt: &impl Abort, alloc: Global, name: &str, bytes: Vec<u8>) -> NamedZone {
    NamedZone {
        name: ZoneName::read(alloc, name.as_bytes()).expect(rt, "the name of a zone"),
        bytes: Blob::from_vec(bytes),
    }
}

/// The zone that a line names.
fn zone_of(rt: &impl Abort, alloc: Global, line: &str) -> Result<NamedZone, AllocError> {
    let (name, bytes) = line.split_once(" ").unwrap_or((line, ""));
    Ok(named_zone(rt, alloc, name, bytes.as_bytes().to_vec(alloc)?))
}

/// The zones that lines name; the calls of these numbers fail.
fn zones_of(
    rt: &impl Abort,
    alloc: Global,
    lines: &str,
    failing: &[u64],
) -> Result<MapZones, AllocError> {
    let mut zones = Vec::new(alloc);
    for line in lines.lines() {
        zones.push(zone_of(rt, alloc, line)?)?;
    }
    Ok(MapZones::new(zones, failing.to_vec(alloc)?))
}

/// Runs `batch` over this input.
pub fn run(
    alloc: Global,
    input: Vec<u8>,
    mut zones: MapZones,
    mut picker: ListPicker,
    mut link: ScriptLink,
) -> Result<Outcome, AllocError> {
    let mut source = MemSource::new(input, 1_000_000, Vec::new(alloc));
    let mut sink = MemSink::new(alloc, 1_000_000, Vec::new(alloc));
    let status = run_words(
        alloc,
        &["batch"],
        &mut source,
        &mut sink,
        &mut zones,
        &mut picker,
        &mut link,
    );
    Ok(Outcome {
        status,
        output: sink.as_bytes().to_vec(alloc)?,
        drawn: picker.given(),
        link,
    })
}

/// The texts of the requests of a table, and of their answers.
#[derive(Drop)]
pub struct Exchange {
    pub input: Vec<u8>,
    pub output: Vec<u8>,
}

impl Exchange {
    /// No request and no answer.
    pub fn new(alloc: Global) -> Exchange {
        Exchange {
            input: Vec::new(alloc),
            output: Vec::new(alloc),
        }
    }
}

/// Adds the text of the request that a line says.
pub fn add_request(alloc: Global, exchange: &mut Exchange, line: &str) -> Result<(), AllocError> {
    let text = request_text(alloc, line)?;
    exchange.input.extend_from_slice(text.as_bytes())
}

/// Adds the text of the answer that a line says.
pub fn add_answer(alloc: Global, exchange: &mut Exchange, line: &str) -> Result<(), AllocError> {
    let text = answer_text(alloc, line)?;
    exchange.output.extend_from_slice(text.as_bytes())
}

/// Adds what a line says: an answer begins with four blanks.
fn add_line(alloc: Global, exchange: &mut Exchange, line: &str) -> Result<(), AllocError> {
    match line.strip_prefix("    ") {
        Some(answer) => add_answer(alloc, exchange, answer),
        None => add_request(alloc, exchange, line),
    }
}

/// What a table says. Its lines are requests, and below each, behind four blanks, its answer.
pub fn exchange_of(alloc: Global, table: &str) -> Result<Exchange, AllocError> {
    let mut exchange = Exchange::new(alloc);
    let table = written_out(alloc, table)?;
    for line in table.lines() {
        add_line(alloc, &mut exchange, line)?;
    }
    Ok(exchange)
}

/// The bytes as text.
fn text_of(bytes: &[u8]) -> &str {
    str::from_utf8(bytes).unwrap_or("no text")
}

/// What was sent is these attempts, one a line.
pub fn check_sent(
    rt: &impl Abort,
    alloc: Global,
    sent: &[Sent],
    attempts: &str,
) -> Result<(), AllocError> {
    assert_eq!(rt; sent.len(), attempts.lines().count());
    for (one, attempt) in sent.iter().zip(attempts.lines()) {
        let wanted = attempt_text(alloc, attempt)?;
        assert_eq!(rt; text_of(one.request.as_bytes()), wanted.as_str());
        assert_eq!(rt; one.to.port, 9000);
    }
    Ok(())
}

/// The input gets this output, over these zones, these words and these replies.
pub fn answered(
    rt: &impl Abort,
    alloc: Global,
    exchange: Exchange,
    zones: MapZones,
    picker: ListPicker,
    link: ScriptLink,
) -> Result<Outcome, AllocError> {
    let Exchange { input, output } = exchange;
    let outcome = run(alloc, input, zones, picker, link)?;
    assert_eq!(rt;
        text_of(outcome.output.as_slice()),
        text_of(output.as_slice())
    );
    assert_eq!(rt; outcome.status, 0);
    Ok(outcome)
}

/// The same with this outside; these attempts are sent, and each word that the picker has is drawn.
pub fn check_exchange(
    rt: &impl Abort,
    alloc: Global,
    outside: Outside,
    exchange: Exchange,
    attempts: &str,
) -> Result<(), AllocError> {
    let zones = zones_of(rt, alloc, outside.zones, outside.failing)?;
    let picker = ListPicker::new(outside.words.to_vec(alloc)?);
    let link = link_of(alloc, outside.replies)?;
    let outcome = answered(rt, alloc, exchange, zones, picker, link)?;
    assert_eq!(rt; outcome.drawn, outside.words.len() as u64);
    check_sent(rt, alloc, outcome.link.sent(), attempts)
}

/// The same of the requests of a table and its answers.
pub fn check(
    rt: &impl Abort,
    alloc: Global,
    outside: Outside,
    table: &str,
    attempts: &str,
) -> Result<(), AllocError> {
    let exchange = exchange_of(alloc, table)?;
    check_exchange(rt, alloc, outside, exchange, attempts)
}
