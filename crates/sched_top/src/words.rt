//! The words of the top call.
ghost use Rattle.std.specs.Prelude.{◌≡◌, ◌≢◌, ◌↔◌, map, IsTrue};
ghost use Rattle.sched_plain.specs.History.{beginning};
ghost use Rattle.outside.specs.Faults.{Rose};
ghost use Rattle.sched_top.specs.Batch.{IsBatch, EndsWith, RunEnds, tells, status_of as status_said};

use crate::batch::{BatchEnd, run_batch};
use book_core::Book;
use http_wire::{Sink, Source};
use policy_rules::Picker;
use std::alloc::Global;
use step_keeper::MemoryKeeper;
use step_machine::Machine;
use target_link::Link;
use zone_occ::ZoneFiles;

/// The input was read to its end, and every request was answered.
const FINISHED: u8 = 0;

/// The words are no command.
const FAULTY_WORDS: u8 = 2;

/// A call of the source failed.
const SOURCE_FAILED: u8 = 3;

/// A call of the sink failed.
const SINK_FAILED: u8 = 4;

/// Memory was wanted outside a request.
const OUT_OF_MEMORY: u8 = 7;

/// A request could not be framed.
const UNFRAMED: u8 = 8;

/// Whether the words are `batch` alone.
fn is_batch(words: &[&str]) -> bool
    ensures { IsTrue result ↔ IsBatch (map (λ word. word.now) words.now) }
{
    match words {
        ["batch"] => true,
        _ => false,
    }
}

/// The exit status of a batch run.
fn status_of(end: BatchEnd) -> u8
    ensures { result ≡ status_said end }
{
    match end {
        BatchEnd::Finished => FINISHED,
        BatchEnd::SourceFailed => SOURCE_FAILED,
        BatchEnd::SinkFailed => SINK_FAILED,
        BatchEnd::OutOfMemory => OUT_OF_MEMORY,
        BatchEnd::Unframed => UNFRAMED,
    }
}

/// Runs a batch over a machine of the empty history, whose steps are kept in memory alone.
fn run_upon<M: Machine + Drop, S: Source, K: Sink, Z: ZoneFiles, P: Picker, L: Link>(
    alloc: Global,
    machine: M,
    source: &mut S,
    sink: &mut K,
    zones: &mut Z,
    picker: &mut P,
    link: &mut L,
) -> BatchEnd
    requires { M.stands machine beginning }
    ensures ends { RunEnds result (Z.told zones.old) beginning
        (tells (S.left source.old) (K.got sink.old) (P.told picker.old) (L.told link.old) (Z.faults zones.old))
        (tells (S.left source.new) (K.got sink.new) (P.told picker.new) (L.told link.new) (Z.faults zones.new)) }
    ensures source_rose { result ≡ BatchEnd.SourceFailed
        → Rose (S.faults source.old) (S.faults source.new) }
    ensures sink_rose { result ≡ BatchEnd.SinkFailed
        → Rose (K.faults sink.old) (K.faults sink.new) }
{
    let mut keeper = MemoryKeeper::new(machine);
    run_batch(alloc, &mut keeper, source, sink, zones, picker, link)
}

/// The top call: runs the command that the words say over a source, a sink, a source of zones, a picker and a link to targets,
/// and returns the program's exit status. It waits for nobody and always returns. The one command is `batch`.
///
/// `batch` starts the service upon an empty history, which it keeps in memory, and answers the requests of the source (RFC 9112)
/// one after the other, each before the next is read, over the history that the one before it left.
///
/// | status | comes |
/// |---|---|
/// | 0 | the source was read to its end, and every request was answered |
/// | 2 | exactly where the words are no command; nothing was read or written |
/// | 3 | a call of the source failed; every request before was answered |
/// | 4 | a call of the sink failed; a front of the answers was taken |
/// | 7 | memory was wanted outside a request; every request before was answered |
/// | 8 | a request could not be framed, and that was answered; nothing was read or written after it |
pub fn run_words<S: Source, K: Sink, Z: ZoneFiles, P: Picker, L: Link>(
    alloc: Global,
    words: &[&str],
    source: &mut S,
    sink: &mut K,
    zones: &mut Z,
    picker: &mut P,
    link: &mut L,
) -> u8
    ensures usage { (result ≡ 2) ↔ ¬ (IsBatch (map (λ word. word.now) words.now)) }
    ensures untouched { result ≡ 2 → (source.new ≡ source.old) × (sink.new ≡ sink.old) × (zones.new ≡ zones.old) × (picker.new ≡ picker.old) × (link.new ≡ link.old) }
    ensures ends { result ≢ 2 → EndsWith result (Z.told zones.old) beginning
        (tells (S.left source.old) (K.got sink.old) (P.told picker.old) (L.told link.old) (Z.faults zones.old))
        (tells (S.left source.new) (K.got sink.new) (P.told picker.new) (L.told link.new) (Z.faults zones.new)) }
    ensures source_rose { result ≡ 3 → Rose (S.faults source.old) (S.faults source.new) }
    ensures sink_rose { result ≡ 4 → Rose (K.faults sink.old) (K.faults sink.new) }
{
    if !is_batch(words) {
        return FAULTY_WORDS;
    }
    let Ok(book) = Book::new(alloc) else {
        return OUT_OF_MEMORY;
    };
    let end = run_upon(alloc, book, source, sink, zones, picker, link);
    status_of(end)
}
