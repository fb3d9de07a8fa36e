ghost use Rattle.std.specs.Prelude.{◌≡◌, ◌≤◌, ◌<◌, ◌^◌};
ghost use Rattle.sched_plain.specs.declared.step.Step.TheVariants as steps;
ghost use Rattle.book_parts.specs.Stands.{Takes};

use book_parts::Parts;
use next_dates::steps_change_the_next_instant;
use sched_plain::{LAST_MOMENT, Moment, SHARDS};
use work_order::steps_change_the_finished_date;

/// The service starts: all shards are free, none is swept, and every attempt in the air is lost.
pub fn boot(parts: &mut Parts, at: Moment)
    requires forward { parts.old.moment ≤ at.0 }
    requires last { at.0 ≤ LAST_MOMENT }
    requires room { parts.old.steps < 2 ^ 62 }
    ensures { Takes parts.old parts.new (steps.Boot at) }
{
    steps_change_the_next_instant();
    steps_change_the_finished_date();
    parts.moment = at;
    parts.steps += 1;
    parts.swept = [None; SHARDS as usize];
    parts.leases.free_all();
    parts.ledger.lose(None, at);
}
