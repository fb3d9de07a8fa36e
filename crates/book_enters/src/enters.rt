ghost use Rattle.std.specs.Prelude.{◌≡◌, ◌≤◌, ◌<◌, ◌^◌, All, length};
ghost use Rattle.sched_plain.specs.declared.step.Step.TheVariants as steps;
ghost use Rattle.sched_plain.specs.Validity.{IsPair};
ghost use Rattle.ledger_rows.specs.Rows.{IsEntrance};
ghost use Rattle.ledger_rows.specs.State.{pairs_in, HasEnterRoom};
ghost use Rattle.book_parts.specs.Stands.{Takes};

use crate::behind::go_on;
use crate::policy::policy_of;
use book_entries::refinish;
use book_parts::Parts;
use next_dates::{next_instants_are_exact, steps_change_the_next_instant};
use sched_plain::{LAST_MOMENT, Moment, Pairs};
use work_order::{only_living_schedules_act, steps_change_the_finished_date, work_is_by_dates};

/// The occurrences of these pairs have entries, under the policy of the content at the first of them. The next instant of
/// the incarnation is then the first behind the last of them, and since when it is finished is written down anew. Where
/// there are no pairs only the moment changes. Takes no memory.
pub fn enter(parts: &mut Parts, at: Moment, inc: u32, pairs: &Pairs)
    requires forward { parts.old.moment ≤ at.0 }
    requires last { at.0 ≤ LAST_MOMENT }
    requires steps { parts.old.steps < 2 ^ 62 }
    requires low { 1 ≤ inc }
    requires there { inc ≤ length parts.old.rows.rows }
    requires each { All IsPair pairs.now }
    requires entrance { IsEntrance (pairs_in parts.old.ledger.lanes inc) pairs.now }
    requires room { HasEnterRoom parts.old.ledger inc (length pairs.now) }
    ensures { Takes parts.old parts.new (steps.Enter at inc pairs.now) }
{
    only_living_schedules_act();
    next_instants_are_exact();
    steps_change_the_next_instant();
    steps_change_the_finished_date();
    work_is_by_dates();
    let policy = policy_of(&parts.rows, inc, pairs.as_slice());
    parts.ledger.enter(inc, policy, pairs);
    go_on(
        &parts.rows,
        &parts.zones,
        &parts.utc,
        inc,
        pairs.as_slice(),
        &mut parts.next,
    );
    refinish(
        &parts.rows,
        &parts.ledger,
        &parts.next,
        &mut parts.finished,
        inc,
    );
    parts.moment = at;
    parts.steps += 1;
}
