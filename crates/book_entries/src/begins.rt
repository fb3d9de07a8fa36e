ghost use Rattle.std.specs.Prelude.{◌≡◌, ◌+◌, ◌≤◌, ◌<◌, ◌^◌, true, IfSome, length};
ghost use Rattle.plain_words.specs.Lists.{some_pass};
ghost use Rattle.sched_plain.specs.declared.step.Step.TheVariants as steps;
ghost use Rattle.sched_plain.specs.Report.{is_due};
ghost use Rattle.sched_plain.specs.Standing.{standing_of};
ghost use Rattle.ledger_rows.specs.State.{filed_in, HasBeginRoom};
ghost use Rattle.book_parts.specs.Stands.{Takes};
ghost use Rattle.book_entries.specs.LetterRoom.{HasLetterRoom};

use book_parts::Parts;
use next_dates::steps_change_the_next_instant;
use sched_plain::{LAST_MOMENT, Moment};
use work_order::steps_change_the_finished_date;

/// The next attempt of an occurrence begins, sent under an epoch.
pub fn begin(parts: &mut Parts, at: Moment, inc: u32, instant: u64, number: u16, epoch: u64)
    requires forward { parts.old.moment ≤ at.0 }
    requires last { at.0 ≤ LAST_MOMENT }
    requires steps { parts.old.steps < 2 ^ 62 }
    requires room { HasBeginRoom parts.old.ledger inc instant }
    requires letter { HasLetterRoom parts.old inc instant }
    requires due { some_pass (λ f. is_due (standing_of f at.0)) (filed_in parts.old.ledger.lanes inc instant) ≡ true }
    requires number { IfSome (filed_in parts.old.ledger.lanes inc instant) (λ f. number ≡ f.entry.used + 1) }
    requires there { inc ≤ length parts.old.rows.rows }
    requires come { instant ≤ at.0 }
    ensures { Takes parts.old parts.new (steps.Begin at inc instant number epoch) }
{
    steps_change_the_next_instant();
    steps_change_the_finished_date();
    let _ = parts.ledger.begin(inc, instant, epoch, at);
    parts.moment = at;
    parts.steps += 1;
}
