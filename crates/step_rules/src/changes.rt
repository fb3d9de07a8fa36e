//! The rules of writes and of zones.
ghost use Rattle.std.specs.Prelude.{◌≡◌};
ghost use Rattle.std.specs.Option.{option_map};
ghost use Rattle.plain_words.specs.Lists.{first_some};
ghost use Rattle.sched_plain.specs.Work.{Occurrence};
ghost use Rattle.sched_plain.specs.Rules.{change_table, zone_table, why_unentered};
ghost use Rattle.step_rules.specs.Looked.{occurrence_of};

use sched_plain::{RowFault, Why};

fn unentered(found: Option<(u32, u64)>) -> Option<Why>
    ensures { result ≡ why_unentered (option_map occurrence_of found) }
{
    match found {
        Some((inc, instant)) => Some(Why::Unentered { inc, instant }),
        None => None,
    }
}

/// A Zone is `ZoneKnown` where its name has bytes or is UTC, `BadZone` where its bytes are no zone, and `Unentered` where
/// what it touches has an occurrence without an entry: the least incarnation that has one, and its first.
pub fn zone_broken(known: bool, readable: bool, found: Option<(u32, u64)>) -> Option<Why>
    ensures { result ≡ first_some (zone_table known readable (option_map occurrence_of found)) }
{
    if known {
        return Some(Why::ZoneKnown);
    }
    if !readable {
        return Some(Why::BadZone);
    }
    unentered(found)
}

/// A Change is `ZoneUnknown` where its zone has no bytes, has the fault of its write over the schedules and groups that
/// are there, is `TokenKept` where an earlier Change has its token, and `Unentered` where what it touches has an
/// occurrence without an entry: the least incarnation that has one, and its first.
pub fn change_broken(
    unknown: bool,
    fault: Option<RowFault>,
    kept: Option<u64>,
    found: Option<(u32, u64)>,
) -> Option<Why>
    ensures { result ≡ first_some (change_table unknown fault kept (option_map occurrence_of found)) }
{
    if unknown {
        return Some(Why::ZoneUnknown);
    }
    if let Some(fault) = fault {
        return Some(Why::Row(fault));
    }
    if let Some(step) = kept {
        return Some(Why::TokenKept { step });
    }
    unentered(found)
}
