//! A question asked over devices in memory. Where memory is wanted the test ends.
ghost use Rattle.std.specs.Prelude.{◌≤◌};

use http_wire::MemSink;
use next_command::{NextEnd, tell_next};
use plain_words::{Blob, Moment, ZoneName};
use std::alloc::{AllocError, Global};
use std::process::Abort;
use std::test::Fail;
use zone_occ::{MapZones, NamedZone};

/// 2026-01-01T00:00:00Z.
pub const NEW_YEAR: u64 = 1_767_225_600;

/// The rule of New York: an hour forward on the second Sunday of March, and back on the first of November.
const RULE: &[u8] = b"EST5EDT,M3.2.0,M11.1.0";

/// What is asked.
#[derive(Clone, Copy)]
pub struct Question {
    pub expression: &'static str,
    pub zone: &'static str,
    pub from: u64,
    pub count: u16,
}

/// A zone of this name with these bytes.
fn named_zone(rt: &impl Abort, alloc: Global, name: &str, bytes: Vec<u8>) -> NamedZone {
    NamedZone {
        name: ZoneName::read(alloc, name.as_bytes()).expect(rt, "the name of a zone"),
        bytes: Blob::from_vec(bytes),
    }
}

/// New York, a zone whose bytes are none, and one with a byte too many; the calls of these numbers fail.
fn zones_of(rt: &impl Abort, alloc: Global, failing: &[u64]) -> Result<MapZones, AllocError> {
    let mut long = Vec::new(alloc);
    long.resize(65_537, b'U')?;
    let mut zones = Vec::new(alloc);
    zones.push(named_zone(rt, alloc, "America/New_York", RULE.to_vec(alloc)?))?;
    zones.push(named_zone(rt, alloc, "Nowhere", b"no zone".to_vec(alloc)?))?;
    zones.push(named_zone(rt, alloc, "Long", long))?;
    Ok(MapZones::new(zones, failing.to_vec(alloc)?))
}

/// Asks, over zones and a sink whose calls of these numbers fail: it ends so, and this text was told.
pub fn check_over(
    rt: &impl Abort,
    alloc: Global,
    question: Question,
    failing_zones: &[u64],
    failing_sink: &[u64],
    end: NextEnd,
    text: &str,
) -> Result<(), Fail>
    requires { 1 ≤ question.count }
{
    let mut zones = zones_of(rt, alloc, failing_zones)?;
    let mut sink = MemSink::new(alloc, 1_000_000, failing_sink.to_vec(alloc)?);
    let zone = ZoneName::read(alloc, question.zone.as_bytes()).expect(rt, "the name of a zone");
    let ended = tell_next(
        alloc,
        question.expression,
        &zone,
        Moment(question.from),
        question.count,
        &mut sink,
        &mut zones,
    );
    assert_eq!(rt; ended, end);
    assert_eq!(rt; sink.as_bytes(), text.as_bytes());
    Ok(())
}

/// The same where no call fails.
pub fn check(
    rt: &impl Abort,
    alloc: Global,
    question: Question,
    end: NextEnd,
    text: &str,
) -> Result<(), Fail>
    requires { 1 ≤ question.count }
{
    check_over(rt, alloc, question, &[], &[], end, text)
}
