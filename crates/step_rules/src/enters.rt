//! The rules of an Enter.
ghost use Rattle.std.specs.Prelude.{◌≡◌, ◌≤◌, drop, length};
ghost use Rattle.plain_words.specs.Lists.{first_some};
ghost use Rattle.sched_plain.specs.Rules.{enter_table, first_astray, is_in_window};

use sched_plain::{Pair, Why};

/// The instant of the first pair that is not the one wanted at its place, None where each is.
pub fn first_astray(pairs: &[Pair], wanted: &[u64]) -> Option<u64>
    ensures { result ≡ first_astray pairs.now wanted.now }
{
    let mut left = wanted;
    for pair in pairs {
        match left.split_first() {
            Some((instant, rest)) if *instant == pair.instant => left = rest,
            _ => return Some(pair.instant),
        }
    }
    None
}

/// Whether the chosen moment of a pair lies in a window of so many minutes: at the instant itself where it has none.
pub fn is_in_window(window: u16, pair: Pair) -> bool
    ensures { result ≡ is_in_window window pair }
{
    if window == 0 {
        return pair.chosen == pair.instant;
    }
    pair.instant <= pair.chosen && pair.chosen - pair.instant < 60 * window as u64
}

/// An Enter is `NotNext` where a pair is not the next one, else `OutsideWindow` where a chosen moment is not in its window.
pub fn enter_broken(astray: Option<u64>, outside: Option<u64>) -> Option<Why>
    ensures { result ≡ first_some (enter_table astray outside) }
{
    if let Some(instant) = astray {
        return Some(Why::NotNext { instant });
    }
    match outside {
        Some(instant) => Some(Why::OutsideWindow { instant }),
        None => None,
    }
}
