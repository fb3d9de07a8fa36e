//! The instants of single civil seconds, and the scan of a cron's minutes.
ghost use Rattle.std.specs.Prelude.{◌≡◌, ℕ, ◌≤◌, ◌<◌, pos, IsTrue, Some, IfSome, IfNone};
ghost use Rattle.plain_words.specs.Moments.{last_moment};
ghost use Rattle.expressions.specs.declared.expression.Civil.{Civil};
ghost use Rattle.cron_search.specs.CivilTime.{IsCivilSecond};
ghost use Rattle.cron_search.specs.Search.{IsFittingMinute, IsFirstFit, IsNoLater};
ghost use Rattle.zone_occ.specs.Conversion.{conv};
ghost use Rattle.zone_occ.specs.Scan.{IsStart, IsEnd};

use crate::conversion::conv;
use crate::zone::Zone;
use civil_time::{civil_at, second_of};
use cron_search::next_civil;
use expressions::{Civil, CronSets};
use plain_words::LAST_MOMENT;

/// The instant of a civil second, where it has one from `from` to `to`.
pub fn instant_within(zone: &Zone, d: Civil, from: u64, to: u64) -> Option<u64>
    requires { IsCivilSecond d }
    ensures found { IfSome result (λ i. (conv zone.now d ≡ Some (pos i)) × (from ≤ i) × (i ≤ to)) }
    ensures none { IfNone result ((i : ℕ) → conv zone.now d ≡ Some (pos i) → from ≤ i → i ≤ to → ⊥) }
{
    let instant = conv(zone, d)?;
    if instant < 0 {
        return None;
    }
    let instant = instant as u64;
    if instant < from || to < instant {
        return None;
    }
    Some(instant)
}

/// The civil second from which on to look for the instants that come at `from` or later: the least
/// offset after `from`.
pub fn scan_start(zone: &Zone, from: u64) -> Civil
    requires { from ≤ last_moment }
    ensures real { IsCivilSecond result }
    ensures early { IsStart zone.now from result }
{
    let start = from as i64 + zone.bounds().least as i64;
    civil_at(start.clamp(0, LAST_MOMENT as i64) as u64)
}

/// Whether a civil second is so late that neither its instant nor a later one's is at most `limit`: it
/// comes more than the greatest offset after it.
fn is_past(zone: &Zone, d: Civil, limit: u64) -> bool
    requires real { IsCivilSecond d }
    requires limit { limit ≤ last_moment }
    ensures { IsTrue result → IsEnd zone.now limit d }
{
    second_of(d) as i64 > limit as i64 + zone.bounds().greatest as i64
}

/// The next fitting minute from `cursor` on, where its instant or a later one's may be at most
/// `limit`.
pub fn next_minute(sets: &CronSets, zone: &Zone, cursor: Civil, limit: u64) -> Option<Civil>
    requires real { IsCivilSecond cursor }
    requires limit { limit ≤ last_moment }
    ensures found { IfSome result (IsFirstFit sets.now cursor) }
    ensures none { IfNone result ((e : Civil) (i : ℕ) → IsFittingMinute sets.now e → IsNoLater cursor e
        → conv zone.now e ≡ Some (pos i) → limit < i) }
{
    if is_past(zone, cursor, limit) {
        return None;
    }
    let minute = next_civil(sets, cursor)?;
    if is_past(zone, minute, limit) {
        return None;
    }
    Some(minute)
}
