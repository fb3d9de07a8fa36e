ghost use Rattle.std.specs.Prelude.{◌≡◌, ◌≤◌, ℕ, List, Option, Some};
ghost use Rattle.sched_plain.specs.Validity.{IsContent};
ghost use Rattle.sched_plain.specs.Items.{opened};
ghost use Rattle.sched_plain.specs.Occurrences.{occurs};
ghost use Rattle.zone_occ.specs.ZoneCalendar.{zone_calendar, zone_under};
ghost use Rattle.next_dates.specs.Dates.{IsLeast, from_on};
ghost use Rattle.schedule_clock.specs.Acting.{acts};

use crate::dates::{Span, anchor_of, within_dates};
use plain_words::{LAST_MOMENT, Moment};
use sched_plain::Schedule;
use zone_occ::{Zone, next_after};

/// The first instant from `from` on, in seconds since 1970 UTC, at which a content acts: None where it is
/// disabled and where none comes. `zone` is what the bytes of its zone are, UTC where it is in UTC;
/// `created` is the creation of its schedule, from which a rate without StartDate counts. The dates
/// bound a rate and a cron, and no `at`. One search, and no memory.
///
/// So it is the first occurrence of an item with this content that begins at or before `from`.
pub fn next_instant(content: &Schedule, zone: &Zone, created: Moment, from: u64) -> Option<u64>
    requires valid { IsContent content.now }
    ensures acts { IsLeast (from_on from (acts content.now zone.now created.0)) result }
    ensures occurs { (bytes : Option (List ℕ)) (first : ℕ) → zone_under bytes ≡ Some zone.now → first ≤ from
        → IsLeast (from_on from (occurs zone_calendar (opened bytes created.0 first content.now))) result }
{
    next_acting(content, zone, created, from)
}

fn next_acting(content: &Schedule, zone: &Zone, created: Moment, from: u64) -> Option<u64>
    requires { IsContent content.now }
    ensures { IsLeast (from_on from (acts content.now zone.now created.0)) result }
{
    if !content.enabled {
        return None;
    }
    let span = within_dates(
        content,
        Span {
            from,
            to: LAST_MOMENT,
        },
    );
    let instant = next_after(&content.expr, zone, anchor_of(content, created), span.from)?;
    if instant > span.to {
        return None;
    }
    Some(instant)
}
