ghost use Rattle.std.specs.Prelude.{◌≡◌};
ghost use Rattle.sched_plain.specs.History.{History};
ghost use Rattle.sched_plain.specs.Report.{counts};
ghost use Rattle.book_parts.specs.Stands.{Stands};

use book_laws::entries_are_the_occurrences;
use book_parts::Parts;
use sched_plain::{Counts, Moment};

/// The numbers of a report at a moment: those of entries say how they stand then, all others what there is now.
pub fn counts(parts: &Parts, now: Moment) -> Counts
    ensures { (h : History) → Stands parts.now h → result ≡ counts h now.0 }
{
    entries_are_the_occurrences();
    let standing = parts.ledger.counts(now);
    Counts {
        moment: now.0,
        steps: parts.length(),
        schedules: parts.rows.living_count(),
        groups: parts.rows.group_count(),
        entries: standing.entries,
        done: standing.done,
        finals: standing.finals,
        attempts: standing.attempts,
        age: standing.age,
        cancelled: standing.cancelled,
        waiting: standing.waiting,
        due: standing.due,
        live: standing.live,
        exhausted: standing.exhausted,
        letters: parts.letters.count(),
    }
}
