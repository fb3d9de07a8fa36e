ghost use Rattle.std.specs.Prelude.{◌≡◌, ◌+◌, ◌≤◌, ◌<◌, ◌^◌, ◌==◌, ℕ, if◌then◌else◌, Some, None, get_or};
ghost use Rattle.plain_words.specs.declared.moment.Moment.{Moment as TheMoment};
ghost use Rattle.sched_plain.specs.declared.step.Step.TheVariants as steps;
ghost use Rattle.book_parts.specs.Stands.{Takes};

use book_parts::Parts;
use next_dates::steps_change_the_next_instant;
use sched_plain::{LAST_MOMENT, Moment, SHARDS};
use work_order::steps_change_the_finished_date;

/// A shard is swept: nothing is left to do in it at this moment.
pub fn swept(parts: &mut Parts, at: Moment, shard: u8)
    requires shard { shard < SHARDS }
    requires forward { parts.old.moment ≤ at.0 }
    requires last { at.0 ≤ LAST_MOMENT }
    requires room { parts.old.steps < 2 ^ 62 }
    ensures { Takes parts.old parts.new (steps.Swept at shard) }
{
    steps_change_the_next_instant();
    steps_change_the_finished_date();
    parts.moment = at;
    parts.steps += 1;
    parts.swept[shard as usize] = Some(at);
}
