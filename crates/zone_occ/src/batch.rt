//! The first instants of an expression in a span.
ghost use Rattle.std.specs.Prelude.{◌≡◌, ◌≤◌, take, IfOk, IfSome, IfNone};
ghost use Rattle.plain_words.specs.Moments.{last_moment};
ghost use Rattle.zone_occ.specs.Instants.{instants};
ghost use Rattle.zone_occ.specs.InstantFacts.{IsCronInstant};
ghost use Rattle.zone_occ.specs.FirstInstants as firsts;
ghost use Rattle.zone_occ.specs.FirstInstants.{IsSearchable, IsInstant, IsNext, IsBare, AreFirsts};

use crate::minutes::just_after;
use crate::next::next_after;
use crate::scan::{instant_within, next_minute, scan_start};
use crate::window::{complete_to, offer};
use crate::zone::Zone;
use expressions::{CronSets, Expr};
use plain_words::Items;
use std::alloc::{AllocError, Global};

/// Instants in seconds since 1970 UTC, rising.
pub type Instants = Items<u64>;

/// The first instants of a span, and how far they are complete: to the end of the span where there
/// are no more, and else to the last of them.
#[derive(Debug, Drop)]
pub struct Batch {
    pub instants: Instants,
    pub complete_to: u64,
}

/// The next instant from `from` on, where there is one up to `to`.
fn next_up_to(expr: &Expr, zone: &Zone, anchor: u64, from: u64, to: u64) -> Option<u64>
    requires { IsSearchable expr.now }
    ensures found { IfSome result (IsNext (IsInstant expr.now zone.now anchor) from) }
    ensures bound { IfSome result (λ moment. moment ≤ to) }
    ensures none { IfNone result (IsBare (IsInstant expr.now zone.now anchor) from to) }
{
    let moment = next_after(expr, zone, anchor, from)?;
    if moment > to {
        return None;
    }
    Some(moment)
}

/// The first instants of a cron in a span, by one scan of its minutes, so that the days round each
/// instant are not looked at again for the next.
fn by_scan(
    alloc: Global,
    sets: &CronSets,
    zone: &Zone,
    from: u64,
    to: u64,
    max: usize,
) -> Result<Vec<u64>, AllocError>
    requires from { from ≤ to }
    requires to { to ≤ last_moment }
    requires max { 1 ≤ max }
    ensures { IfOk result (λ moments. AreFirsts (IsCronInstant sets.now zone.now) from to max moments.items) }
{
    let mut moments = Vec::new(alloc);
    let mut cursor = scan_start(zone, from);
    while let Some(minute) = next_minute(
        sets,
        zone,
        cursor,
        complete_to(moments.as_slice(), max, to),
    ) {
        let limit = complete_to(moments.as_slice(), max, to);
        offer(&mut moments, max, instant_within(zone, minute, from, limit))?;
        cursor = just_after(minute);
    }
    Ok(moments)
}

/// The first instants of a span: of a cron by one scan, and else by one search for each.
fn first_moments(
    alloc: Global,
    expr: &Expr,
    zone: &Zone,
    anchor: u64,
    from: u64,
    to: u64,
    max: usize,
) -> Result<Vec<u64>, AllocError>
    requires searchable { IsSearchable expr.now }
    requires to { to ≤ last_moment }
    requires max { 1 ≤ max }
    ensures { IfOk result (λ moments. AreFirsts (IsInstant expr.now zone.now anchor) from to max moments.items) }
{
    if let Expr::Cron(sets) = expr
        && from <= to
    {
        return by_scan(alloc, sets, zone, from, to, max);
    }
    let mut moments = Vec::new(alloc);
    let mut start = from;
    while let Some(moment) = next_up_to(
        expr,
        zone,
        anchor,
        start,
        complete_to(moments.as_slice(), max, to),
    ) {
        offer(&mut moments, max, Some(moment))?;
        start = moment + 1;
    }
    Ok(moments)
}

/// The first `max` instants of an expression in a zone from `from` to `to`, both included, rising, none
/// left out, and how far they are complete: to `to` where there are fewer than `max`, and else to the
/// last of them. Moments are seconds since 1970 UTC; `anchor` is where a rate starts, and any number.
/// An `at` is a real civil second of the years 1970 to 2199, a rate's count and `max` are at least 1,
/// and `to` is at most 2199-12-31T23:59:59Z. Where `from` is above `to` there are none.
///
/// A civil second in a gap has no instant, and one in a fold the earlier of two (EventBridge Scheduler
/// User Guide, "Daylight savings time").
pub fn occurrences(
    alloc: Global,
    expr: &Expr,
    zone: &Zone,
    anchor: u64,
    from: u64,
    to: u64,
    max: u16,
) -> Result<Batch, AllocError>
    requires searchable { IsSearchable expr.now }
    requires to { to ≤ last_moment }
    requires max { 1 ≤ max }
    ensures firsts { IfOk result (λ batch. AreFirsts (IsInstant expr.now zone.now anchor) from to max batch.instants) }
    ensures list { IfOk result (λ batch. batch.instants ≡ take max (instants expr.now zone.now anchor from to)) }
    ensures complete { IfOk result (λ batch. batch.complete_to ≡ firsts.complete_to max to batch.instants) }
{
    let moments = first_moments(alloc, expr, zone, anchor, from, to, max as usize)?;
    let complete_to = complete_to(moments.as_slice(), max as usize, to);
    Ok(Batch {
        instants: Items::from_vec(moments),
        complete_to,
    })
}
