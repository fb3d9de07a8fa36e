//! The next instant of an expression.
ghost use Rattle.std.specs.Prelude.{◌≡◌, ◌≤◌, ◌<◌, ◌^◌, IfSome, IfNone};
ghost use Rattle.plain_words.specs.Moments.{last_moment};
ghost use Rattle.cron_search.specs.CivilTime.{IsCivilSecond};
ghost use Rattle.zone_occ.specs.Instants as instants;
ghost use Rattle.zone_occ.specs.InstantFacts.{IsAtInstant, IsStep, IsRateInstant, IsCronInstant};
ghost use Rattle.zone_occ.specs.FirstInstants as firsts;
ghost use Rattle.zone_occ.specs.FirstInstants.{IsSearchable, IsInstant, IsNext, HasNoNext};

use crate::minutes::just_after;
use crate::scan::{instant_within, next_minute, scan_start};
use crate::zone::Zone;
use expressions::{Civil, CronSets, Expr, Unit};
use plain_words::LAST_MOMENT;

/// The seconds of a day.
const DAY_SECONDS: u64 = 86_400;

/// The seconds of a unit.
fn unit_seconds(unit: Unit) -> u64
    ensures value { result ≡ instants.unit_seconds unit }
    ensures low { 1 ≤ result }
    ensures high { result ≤ DAY_SECONDS }
{
    match unit {
        Unit::Minute => 60,
        Unit::Hour => 3600,
        Unit::Day => DAY_SECONDS,
    }
}

/// The seconds from one run of a rate to the next.
fn period(count: u32, unit: Unit) -> u64
    requires { 1 ≤ count }
    ensures value { result ≡ instants.period count unit }
    ensures low { 1 ≤ result }
    ensures high { result < 2 ^ 50 }
{
    count as u64 * unit_seconds(unit)
}

fn next_at(d: Civil, zone: &Zone, from: u64) -> Option<u64>
    requires { IsCivilSecond d }
    ensures found { IfSome result (IsNext (IsAtInstant zone.now d) from) }
    ensures none { IfNone result (HasNoNext (IsAtInstant zone.now d) from) }
{
    instant_within(zone, d, from, LAST_MOMENT)
}

/// The first step from the anchor on that comes at or after `from`.
fn step_from(seconds: u64, anchor: u64, from: u64) -> u64
    requires low { 1 ≤ seconds }
    requires high { seconds < 2 ^ 50 }
    requires from { from ≤ last_moment }
    ensures { IsNext (IsStep seconds anchor) from result }
{
    if from <= anchor {
        return anchor;
    }
    let passed = (from - anchor) % seconds;
    if passed == 0 {
        return from;
    }
    from + (seconds - passed)
}

fn next_step(seconds: u64, anchor: u64, from: u64) -> Option<u64>
    requires low { 1 ≤ seconds }
    requires high { seconds < 2 ^ 50 }
    requires from { from ≤ last_moment }
    ensures found { IfSome result (IsNext (IsRateInstant seconds anchor) from) }
    ensures none { IfNone result (HasNoNext (IsRateInstant seconds anchor) from) }
{
    let step = step_from(seconds, anchor, from);
    if step > LAST_MOMENT {
        return None;
    }
    Some(step)
}

/// The earlier of two moments, where there are two.
fn earlier(a: Option<u64>, b: Option<u64>) -> Option<u64>
    ensures { result ≡ firsts.earlier a b }
{
    match (a, b) {
        (Some(x), Some(y)) => Some(x.min(y)),
        (Some(x), None) => Some(x),
        (None, other) => other,
    }
}

/// Looks at the fitting minutes whose instants may come at `from` or later and before the best one
/// so far: those from the zone's least offset after `from` to its greatest offset after that one.
fn next_cron(sets: &CronSets, zone: &Zone, from: u64) -> Option<u64>
    requires { from ≤ last_moment }
    ensures found { IfSome result (IsNext (IsCronInstant sets.now zone.now) from) }
    ensures none { IfNone result (HasNoNext (IsCronInstant sets.now zone.now) from) }
{
    let mut earliest = None;
    let mut cursor = scan_start(zone, from);
    while let Some(minute) = next_minute(sets, zone, cursor, earliest.unwrap_or(LAST_MOMENT)) {
        earliest = earlier(earliest, instant_within(zone, minute, from, LAST_MOMENT));
        cursor = just_after(minute);
    }
    earliest
}

/// The least instant at or after `from` of an expression in a zone, or `None` where none comes up to
/// 2199-12-31T23:59:59Z. Moments are seconds since 1970 UTC; `anchor` is where a rate starts, and any
/// number. An `at` is a real civil second of the years 1970 to 2199, and a rate's count at least 1.
/// Takes no memory.
///
/// A civil second in a gap has no instant, and one in a fold the earlier of two (EventBridge Scheduler
/// User Guide, "Daylight savings time"). In New York `30 2 * * ? *` skips 8 March 2026.
pub fn next_after(expr: &Expr, zone: &Zone, anchor: u64, from: u64) -> Option<u64>
    requires { IsSearchable expr.now }
    ensures found { IfSome result (IsNext (IsInstant expr.now zone.now anchor) from) }
    ensures none { IfNone result (HasNoNext (IsInstant expr.now zone.now anchor) from) }
{
    if from > LAST_MOMENT {
        return None;
    }
    match expr {
        Expr::At(d) => next_at(*d, zone, from),
        Expr::Rate { count, unit } => next_step(period(*count, *unit), anchor, from),
        Expr::Cron(sets) => next_cron(sets, zone, from),
    }
}
