ghost use Rattle.std.specs.Prelude.{◌≡◌, ◌+◌, ◌≤◌, ◌<◌, ◌^◌, ◌++◌, [], ℕ, List, Some, true, if◌then◌else◌, length};
ghost use Rattle.plain_words.specs.Lists.{same_text, some_pass};
ghost use Rattle.sched_plain.specs.declared.outcome.Outcome.TheVariants as outcomes;
ghost use Rattle.sched_plain.specs.declared.step.Step.TheVariants as steps;
ghost use Rattle.sched_plain.specs.Attempts.{is_live_attempt};
ghost use Rattle.sched_plain.specs.Queues.{Posted, letter_in, queue_of};
ghost use Rattle.sched_plain.specs.Rows.{content_at};
ghost use Rattle.ledger_rows.specs.State.{filed_in};
ghost use Rattle.dead_letters.specs.Piles.{room_in};
ghost use Rattle.dead_letters.specs.Posts.{Holds};
ghost use Rattle.book_parts.specs.Stands.{Takes};
ghost use Rattle.book_entries.specs.Ending.{fails, is_aloft};

use crate::finishing::refinish;
use crate::letters::post;
use book_parts::Parts;
use dead_letters::DeadLetters;
use ledger_rows::Ledger;
use next_dates::steps_change_the_next_instant;
use plain_words::Verdict;
use sched_plain::{Filed, LAST_MOMENT, Moment, Outcome};
use sched_rows::Rows;
use work_order::{steps_change_the_finished_date, work_is_by_dates};

/// Whether a verdict decides an entry as failed for good.
fn fails(verdict: Verdict, filed: Option<Filed>) -> bool
    ensures { result ≡ fails verdict filed }
{
    match verdict {
        Verdict::Final => match filed {
            Some(filed) => filed.entry.outcome.is_none(),
            None => false,
        },
        Verdict::Done => false,
        Verdict::Retry => false,
    }
}

/// Adds the letter of an End, where it fails an open entry for good.
fn post_final(
    rows: &Rows,
    ledger: &Ledger,
    letters: &mut DeadLetters,
    inc: u32,
    instant: u64,
    verdict: Verdict,
)
    requires { (queue : List ℕ) → queue_of (content_at rows.now.rows inc instant) ≡ Some queue → 1 ≤ room_in letters.old queue }
    ensures stands { (posted : List Posted) → Holds letters.old posted → Holds letters.new (posted ++ (if fails verdict (filed_in ledger.now.lanes inc instant) then letter_in (queue_of (content_at rows.now.rows inc instant)) inc instant outcomes.Final else [])) }
    ensures room { (q : List ℕ) → room_in letters.old q ≤ room_in letters.new q + (if some_pass (λ queue. same_text queue q) (queue_of (content_at rows.now.rows inc instant)) then 1 else 0) }
{
    if fails(verdict, ledger.filed(inc, instant)) {
        post(rows, letters, inc, instant, Outcome::Final);
    }
}

/// An attempt in the air ends with a verdict and a status, 0 where no reply could be read.
/// Its place among the steps was kept since it began, so that it is taken behind the last of any other kind.
pub fn end(
    parts: &mut Parts,
    at: Moment,
    inc: u32,
    instant: u64,
    number: u16,
    verdict: Verdict,
    status: u16,
)
    requires forward { parts.old.moment ≤ at.0 }
    requires last { at.0 ≤ LAST_MOMENT }
    requires steps { parts.old.steps ≤ 2 ^ 62 }
    requires live { is_live_attempt (filed_in parts.old.ledger.lanes inc instant) number ≡ true }
    requires aloft { is_aloft parts.old.ledger.flights inc instant ≡ true }
    requires low { 1 ≤ inc }
    requires there { inc ≤ length parts.old.rows.rows }
    ensures { Takes parts.old parts.new (steps.End at inc instant number verdict status) }
{
    steps_change_the_next_instant();
    steps_change_the_finished_date();
    work_is_by_dates();
    post_final(
        &parts.rows,
        &parts.ledger,
        &mut parts.letters,
        inc,
        instant,
        verdict,
    );
    parts.ledger.end(inc, instant, number, verdict, status, at);
    refinish(
        &parts.rows,
        &parts.ledger,
        &parts.next,
        &mut parts.finished,
        inc,
    );
    parts.moment = at;
    parts.steps += 1;
}
