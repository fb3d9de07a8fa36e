ghost use Rattle.std.specs.Prelude.{◌≡◌, ◌≤◌, ◌+◌, ℕ, List, Option, Some, IfOk, take};
ghost use Rattle.plain_words.specs.Lists.{passing};
ghost use Rattle.sched_plain.specs.Validity.{IsContent};
ghost use Rattle.sched_plain.specs.Items.{opened};
ghost use Rattle.sched_plain.specs.Occurrences.{occurs};
ghost use Rattle.zone_occ.specs.ZoneCalendar.{zone_calendar, zone_under};
ghost use Rattle.next_dates.specs.Dates.{from_on};
ghost use Rattle.schedule_clock.specs.Acting.{acts};

use crate::dates::{Span, anchor_of, within_dates};
use plain_words::{Items, LAST_MOMENT, Moment};
use sched_plain::Schedule;
use std::alloc::{AllocError, Global};
use zone_occ::{Zone, occurrences};

/// The first `most` instants from `from` to `to`, both included, at which a content acts, in seconds
/// since 1970 UTC: rising, none left out, and none where it is disabled. `zone` is what the bytes of its
/// zone are, UTC where it is in UTC; `created` is the creation of its schedule, from which a rate
/// without StartDate counts. It fails only for want of memory.
///
/// So they are the first occurrences of an item with this content that begins at or before `from`.
pub fn instants(
    alloc: Global,
    content: &Schedule,
    zone: &Zone,
    created: Moment,
    from: u64,
    to: u64,
    most: u16,
) -> Result<Items<u64>, AllocError>
    requires valid { IsContent content.now }
    requires most { 1 ≤ most }
    ensures acts { IfOk result (λ all. all ≡ take most (passing (from_on from (acts content.now zone.now created.0)) (to + 1))) }
    ensures occurs { (bytes : Option (List ℕ)) (first : ℕ) → zone_under bytes ≡ Some zone.now → first ≤ from
        → IfOk result (λ all. all ≡ take most (passing (from_on from (occurs zone_calendar (opened bytes created.0 first content.now))) (to + 1))) }
{
    acting(alloc, content, zone, created, Span { from, to }, most)
}

fn acting(
    alloc: Global,
    content: &Schedule,
    zone: &Zone,
    created: Moment,
    span: Span,
    most: u16,
) -> Result<Items<u64>, AllocError>
    requires valid { IsContent content.now }
    requires most { 1 ≤ most }
    ensures { IfOk result (λ all. all ≡ take most (passing (from_on span.from (acts content.now zone.now created.0)) (span.to + 1))) }
{
    if !content.enabled {
        return Ok(Items::new(alloc));
    }
    let known = Span {
        to: span.to.min(LAST_MOMENT),
        ..span
    };
    let dated = within_dates(content, known);
    let batch = occurrences(
        alloc,
        &content.expr,
        zone,
        anchor_of(content, created),
        dated.from,
        dated.to,
        most,
    )?;
    Ok(batch.instants)
}
