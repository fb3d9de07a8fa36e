ghost use Rattle.std.specs.Prelude.{◌≡◌, ◌≤◌, true};
ghost use Rattle.sched_plain.specs.Rules.{is_in_window};
ghost use Rattle.sched_calls.specs.Serves.{chosen_in};

use sched_plain::{LAST_MOMENT, LONGEST_WINDOW};

/// The moment at which an occurrence is sent, in seconds since 1970 UTC: its instant where its window is OFF (0), else a
/// moment of the so many minutes from the instant on, chosen by a picker's word (EventBridge Scheduler,
/// `FlexibleTimeWindow`).
pub fn chosen(instant: u64, window: u16, word: u64) -> u64
    requires instant { instant ≤ LAST_MOMENT }
    requires window { window ≤ LONGEST_WINDOW }
    ensures value { result ≡ chosen_in window instant word }
    ensures within { is_in_window window (record { instant = instant; chosen = result }) ≡ true }
{
    if window == 0 {
        return instant;
    }
    instant + word % (60 * window as u64)
}
