ghost use Rattle.std.specs.Prelude.{◌≡◌, ◌≤◌, ◌<◌, ◌^◌, true, length};
ghost use Rattle.plain_words.specs.Lists.{some_pass};
ghost use Rattle.sched_plain.specs.declared.step.Step.TheVariants as steps;
ghost use Rattle.sched_plain.specs.Entries.{outcome_of};
ghost use Rattle.ledger_rows.specs.State.{filed_in, is_closable};
ghost use Rattle.book_parts.specs.Stands.{Takes};
ghost use Rattle.book_entries.specs.LetterRoom.{HasLetterRoom};

use crate::finishing::refinish;
use crate::letters::post;
use book_parts::Parts;
use next_dates::steps_change_the_next_instant;
use sched_plain::{LAST_MOMENT, Moment, Outcome, Reason};
use work_order::{steps_change_the_finished_date, work_is_by_dates};

/// How an entry is decided that is given up for a reason.
fn outcome_of(reason: Reason) -> Outcome
    ensures { result ≡ outcome_of reason }
{
    match reason {
        Reason::Attempts => Outcome::Attempts,
        Reason::Age => Outcome::Age,
    }
}

/// An entry that is open, and has no attempt in the air, is given up.
pub fn close(parts: &mut Parts, at: Moment, inc: u32, instant: u64, reason: Reason)
    requires forward { parts.old.moment ≤ at.0 }
    requires last { at.0 ≤ LAST_MOMENT }
    requires steps { parts.old.steps < 2 ^ 62 }
    requires letter { HasLetterRoom parts.old inc instant }
    requires closable { some_pass is_closable (filed_in parts.old.ledger.lanes inc instant) ≡ true }
    requires low { 1 ≤ inc }
    requires there { inc ≤ length parts.old.rows.rows }
    ensures { Takes parts.old parts.new (steps.Close at inc instant reason) }
{
    steps_change_the_next_instant();
    steps_change_the_finished_date();
    work_is_by_dates();
    post(
        &parts.rows,
        &mut parts.letters,
        inc,
        instant,
        outcome_of(reason),
    );
    parts.ledger.close(inc, instant, reason);
    refinish(
        &parts.rows,
        &parts.ledger,
        &parts.next,
        &mut parts.finished,
        inc,
    );
    parts.moment = at;
    parts.steps += 1;
}
