//! Sets of small numbers as bits: bit v stands for the value v.
ghost use Rattle.std.specs.Prelude.{◌≡◌, ◌≤◌, ◌<◌, IfSome, IfNone};
ghost use Rattle.cron_search.specs.Fit.{has_value};
ghost use Rattle.cron_search.specs.First.{IsFirst, HasNone};
ghost use Rattle.cron_search.specs.Levels.{IsValue, itself};

/// Whether the set has the value.
pub fn contains(set: u128, value: u8) -> bool
    requires { value < 128 }
    ensures { result ≡ has_value set value }
{
    (set >> value) & 1 == 1
}

/// The least value of the set from `from` on and below `end`.
pub fn next_value(set: u128, from: u8, end: u8) -> Option<u8>
    requires { end ≤ 128 }
    ensures found { IfSome result (IsFirst (IsValue set end) itself from) }
    ensures none { IfNone result (HasNone (IsValue set end) itself from) }
{
    if from >= end {
        return None;
    }
    let rest = set >> from;
    if rest == 0 {
        return None;
    }
    let value = from + rest.trailing_zeros() as u8;
    if value < end { Some(value) } else { None }
}
