ghost use Rattle.std.specs.Prelude.{◌≡◌, ◌≤◌, ◌<◌, ◌^◌, true};
ghost use Rattle.sched_plain.specs.declared.step.Step.TheVariants as steps;
ghost use Rattle.sched_rows.specs.State.{lives_at};
ghost use Rattle.book_parts.specs.Stands.{Takes};

use book_parts::Parts;
use next_dates::steps_change_the_next_instant;
use sched_plain::{LAST_MOMENT, Moment};
use work_order::steps_change_the_finished_date;

/// A living schedule that is finished is removed: it lives no more, its contents end, and it has no date since when it is
/// finished. Its entries, their attempts and their letters stay.
pub fn complete(parts: &mut Parts, at: Moment, inc: u32)
    requires forward { parts.old.moment ≤ at.0 }
    requires last { at.0 ≤ LAST_MOMENT }
    requires steps { parts.old.steps < 2 ^ 62 }
    requires lives { lives_at parts.old.rows.rows inc ≡ true }
    ensures { Takes parts.old parts.new (steps.Complete at inc) }
{
    steps_change_the_next_instant();
    steps_change_the_finished_date();
    parts.rows.remove(inc, at);
    parts.finished.set(inc, None);
    parts.moment = at;
    parts.steps += 1;
}
