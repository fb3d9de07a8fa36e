//! The answer written to a sink.
ghost use Rattle.std.specs.Prelude.{◌≡◌, ◌≤◌};
ghost use Rattle.outside.specs.Faults.{Rose};
ghost use Rattle.next_command.specs.Answers.{asks};
ghost use Rattle.next_command.specs.Ends.{NextEnds};

use crate::answer::{NextAnswer, answer};
use crate::zone_found::FindFault;
use http_wire::{Sink, send_all};
use plain_words::{Moment, ZoneName};
use std::alloc::Global;
use zone_occ::ZoneFiles;

/// How telling the answer ends.
#[derive(Debug, Clone, Copy, PartialEq, Eq)]
pub enum NextEnd {
    /// The instants were told.
    Told,
    /// The expression or the zone cannot be read, and that was told.
    Refused,
    /// The source of zones failed; nothing was told.
    ZonesFailed,
    /// The sink failed; a front of the text was told.
    SinkFailed,
    /// Memory was wanted; nothing was told.
    OutOfMemory,
}

/// Tells when an expression runs next in a zone: its canonical spelling and its first `count` instants at or after `from`, a
/// line each, as `yyyy-mm-ddThh:mm:ssZ`, none later than 2199-12-31T23:59:59Z; a rate begins at `from`. Or one line says why
/// there are none to tell, the expression looked at first: `expression N at P` for its first fault, `zone absent`, or `not a
/// zone`.
pub fn tell_next<K: Sink, Z: ZoneFiles>(
    alloc: Global,
    expression: &str,
    zone: &ZoneName,
    from: Moment,
    count: u16,
    sink: &mut K,
    zones: &mut Z,
) -> NextEnd
    requires some { 1 ≤ count }
    ensures ends { NextEnds result (Z.told zones.old) (asks expression.now zone.now from.0 count) (K.got sink.old) (K.got sink.new) }
    ensures sink_rose { result ≡ NextEnd.SinkFailed → Rose (K.faults sink.old) (K.faults sink.new) }
    ensures zones_rose { result ≡ NextEnd.ZonesFailed → Rose (Z.faults zones.old) (Z.faults zones.new) }
{
    match answer(alloc, expression.as_bytes(), zone, from, count, zones) {
        Ok(NextAnswer::Instants(text)) => match send_all(sink, &text) {
            Ok(()) => NextEnd::Told,
            Err(_) => NextEnd::SinkFailed,
        },
        Ok(NextAnswer::Refusal(text)) => match send_all(sink, &text) {
            Ok(()) => NextEnd::Refused,
            Err(_) => NextEnd::SinkFailed,
        },
        Err(FindFault::ZonesFailed) => NextEnd::ZonesFailed,
        Err(FindFault::OutOfMemory) => NextEnd::OutOfMemory,
    }
}
