//! The windows of an Enter.
ghost use Rattle.std.specs.Prelude.{◌≡◌};
ghost use Rattle.sched_plain.specs.Rows.{content_at};
ghost use Rattle.sched_plain.specs.Rules.{first_outside, window_of};

use sched_plain::Pair;
use sched_rows::Rows;

fn window_at(rows: &Rows, inc: u32, instant: u64) -> u16
    ensures { result ≡ window_of (content_at rows.now.rows inc instant) }
{
    match rows.revision_at(inc, instant) {
        Some(content) => content.window,
        None => 0,
    }
}

/// The instant of the first pair whose chosen moment is outside the window at its instant.
pub fn first_outside(rows: &Rows, inc: u32, pairs: &[Pair]) -> Option<u64>
    ensures { result ≡ first_outside (content_at rows.now.rows inc) pairs.now }
{
    for pair in pairs {
        if !step_rules::is_in_window(window_at(rows, inc, pair.instant), *pair) {
            return Some(pair.instant);
        }
    }
    None
}
