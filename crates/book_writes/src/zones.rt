//! The first instant of a content, in its zone.
ghost use Rattle.std.specs.Prelude.{◌≡◌};
ghost use Rattle.sched_plain.specs.Validity.{IsContent};
ghost use Rattle.zone_occ.specs.ZoneText.{utc as built_in};
ghost use Rattle.date_table.specs.Dates.{IsDate};
ghost use Rattle.book_writes.specs.Dating.{IsFirst, IsKnown};

use book_parts::zone_named;
use sched_plain::{Moment, Schedule};
use schedule_clock::next_instant;
use zone_occ::Zone;
use zone_shelf::ZoneShelf;

/// The first instant of a content from a moment on, none where the bytes of its zone are not there; `created` is the
/// creation of its schedule, from which a rate without StartDate counts.
pub fn first_instant(
    zones: &ZoneShelf,
    utc: &Zone,
    content: &Schedule,
    created: Moment,
    from: u64,
) -> Option<u64>
    requires utc { utc.now ≡ built_in }
    requires valid { IsContent content.now }
    ensures date { IsDate result }
    ensures first { IsKnown zones.now content.now → IsFirst zones.now content.now created.0 from result }
{
    match zone_named(utc, zones, &content.zone) {
        Some(zone) => next_instant(content, zone, created, from),
        None => None,
    }
}
