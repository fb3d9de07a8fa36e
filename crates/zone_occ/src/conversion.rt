ghost use Rattle.std.specs.Prelude.{◌≡◌, ◌-ℤ◌};
ghost use Rattle.jiff_core.specs.Calendar.{IsWithin};
ghost use Rattle.jiff_core.specs.DateTime.{civil_seconds};
ghost use Rattle.cron_search.specs.CivilTime.{IsCivilSecond};
ghost use Rattle.zone_occ.specs.Sides.{sides};
ghost use Rattle.zone_occ.specs.Kind.{kind_text, sides_of};
ghost use Rattle.zone_occ.specs.Conversion.{conv, instant_by};

use crate::zone::{Kind, Zone};
use civil_time::library_time;
use expressions::Civil;
use jiff_core::Offset;
use jiff_core::civil::DateTime;
use jiff_tz::AmbiguousOffset;

/// The offsets at which the clocks of a zone show a whole second.
fn offsets_at(kind: &Kind, datetime: DateTime) -> AmbiguousOffset
    requires { datetime.time.subsec_nanosecond ≡ 0 }
    ensures { sides_of result ≡ sides (kind_text kind.now) datetime.date.year (civil_seconds datetime) }
{
    match kind {
        Kind::Utc => AmbiguousOffset::Unambiguous {
            offset: Offset::UTC,
        },
        Kind::Rule(rule) => rule.to_ambiguous_offset(datetime),
        Kind::Table(table) => table.to_ambiguous_offset(datetime),
    }
}

/// The instant at which a clock so many seconds ahead of UTC shows a second.
fn instant_at(second: i64, ahead: i32) -> i64
    requires { IsWithin 400_000_000_000 second }
    ensures { result ≡ second -ℤ ahead }
{
    second - ahead as i64
}

/// The instant at which a clock with these offsets first shows a second.
fn instant_of(second: i64, offsets: AmbiguousOffset) -> Option<i64>
    requires { IsWithin 400_000_000_000 second }
    ensures { result ≡ instant_by second (sides_of offsets) }
{
    match offsets {
        AmbiguousOffset::Unambiguous { offset } => Some(instant_at(second, offset.seconds)),
        AmbiguousOffset::Gap { .. } => None,
        AmbiguousOffset::Fold { before, after } => Some(instant_at(
            second,
            before.seconds.max(after.seconds),
        )),
    }
}

/// The instant of a civil second in a zone, in seconds since 1970-01-01T00:00:00Z: `None` in a gap,
/// which the clock skips, the earlier instant in a fold, which the clock shows twice, and else the
/// one instant. `d` is a real civil second from 1970 to 2199. Takes no memory.
///
/// In New York 2026-11-01T01:30:00 comes twice, and is 1793511000; 2026-03-08T02:30:00 never comes.
pub fn conv(zone: &Zone, d: Civil) -> Option<i64>
    requires { IsCivilSecond d }
    ensures { result ≡ conv zone.now d }
{
    let datetime = library_time(d);
    instant_of(datetime.to_second(), offsets_at(&zone.kind, datetime))
}
