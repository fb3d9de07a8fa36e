//! How many entries are decided, by their outcome.
ghost use Rattle.std.specs.Prelude.{◌≡◌, ◌≤◌, [], ◌∷◌};
ghost use Rattle.sched_plain.specs.Standing.{standing_of};
ghost use Rattle.sched_plain.specs.declared.standing.Standing.TheVariants as standings;
ghost use Rattle.ledger_rows.specs.Tallying.{tally_of, replaced, IsAmong, IsUpTo};

use entry_lines::MOST_ENTRIES;
use sched_plain::{Filed, Outcome};

/// How many entries are decided, by their outcome.
#[derive(Debug, Clone, Copy, PartialEq, Eq)]
pub struct Tally {
    pub done: u64,
    pub finals: u64,
    pub attempts: u64,
    pub age: u64,
    pub cancelled: u64,
}

/// The tally of no entries.
pub fn none() -> Tally
    ensures { result ≡ tally_of [] }
{
    Tally {
        done: 0,
        finals: 0,
        attempts: 0,
        age: 0,
        cancelled: 0,
    }
}

/// The tally of one entry.
pub fn alone(filed: &Filed) -> Tally
    ensures { result ≡ tally_of (standing_of filed.now 0 ∷ []) }
{
    match filed.entry.outcome {
        Some(outcome) => decided(outcome),
        None => none(),
    }
}

fn decided(outcome: Outcome) -> Tally
    ensures { result ≡ tally_of (standings.Decided outcome ∷ []) }
{
    match outcome {
        Outcome::Done => Tally { done: 1, ..none() },
        Outcome::Final => Tally {
            finals: 1,
            ..none()
        },
        Outcome::Attempts => Tally {
            attempts: 1,
            ..none()
        },
        Outcome::Age => Tally { age: 1, ..none() },
        Outcome::Cancelled => Tally {
            cancelled: 1,
            ..none()
        },
    }
}

/// Some entries of a tally are changed: what these were goes out, and what they are comes in.
pub fn replace(tally: &mut Tally, from: Tally, to: Tally)
    requires among { IsAmong from tally.old }
    requires few { IsUpTo 9223372036854775808 tally.old }
    requires small { IsUpTo MOST_ENTRIES to }
    ensures { tally.new ≡ replaced tally.old from to }
{
    *tally = Tally {
        done: tally.done - from.done + to.done,
        finals: tally.finals - from.finals + to.finals,
        attempts: tally.attempts - from.attempts + to.attempts,
        age: tally.age - from.age + to.age,
        cancelled: tally.cancelled - from.cancelled + to.cancelled,
    };
}
