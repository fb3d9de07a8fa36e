//! The next work of a shard, by dates and by the ledger's first entries.
ghost use Rattle.std.specs.Prelude.{◌≡◌, ◌<◌, ℕ, List};
ghost use Rattle.sched_plain.specs.Ledger.{LedgerCall};
ghost use Rattle.sched_plain.specs.History.{History};
ghost use Rattle.sched_plain.specs.Seen.{seen};
ghost use Rattle.sched_plain.specs.Standing.{standing_of};
ghost use Rattle.sched_plain.specs.Work.{work, act_of, live_of, wanted_by, waited_for};
ghost use Rattle.sched_plain.specs.Entries.{filed};
ghost use Rattle.ledger_rows.specs.State.{Stands as LedgerStands};
ghost use Rattle.ledger_rows.specs.declared.question.Question.TheVariants as questions;
ghost use Rattle.book_parts.specs.Answers.{work_at, IsFirstWork, first_of};
ghost use Rattle.book_parts.specs.Stands.{Stands, calendar};

use crate::parts::Parts;
use ledger_rows::Ledger;
use sched_plain::{Moment, SHARDS, Standing, Work};
use work_order::{first_entries_are_found, work_is_by_dates};

fn wanted_by(standing: Standing, inc: u32, instant: u64) -> Option<Work>
    ensures { result ≡ wanted_by inc instant standing }
{
    match standing {
        Standing::Exhausted(reason) => Some(Work::Close {
            inc,
            instant,
            reason,
        }),
        Standing::Due => Some(Work::Begin { inc, instant }),
        _ => None,
    }
}

fn waited_for(standing: Standing, inc: u32, instant: u64) -> Option<Work>
    ensures { result ≡ waited_for inc instant standing }
{
    match standing {
        Standing::Live => Some(Work::Live { inc, instant }),
        _ => None,
    }
}

/// What the entry of an occurrence is to have done at a moment.
fn act_at(ledger: &Ledger, inc: u32, instant: u64, now: Moment) -> Option<Work>
    ensures { (calls : List LedgerCall) → LedgerStands ledger.now calls → result ≡ work_at calls (act_of now.0) inc instant }
{
    let filed = ledger.filed(inc, instant)?;
    if filed.entry.chosen > now.0 {
        return None;
    }
    wanted_by(ledger.standing(inc, instant, now)?, inc, instant)
}

/// The attempt of an occurrence that is waited for.
fn wait_at(ledger: &Ledger, inc: u32, instant: u64, now: Moment) -> Option<Work>
    ensures { (calls : List LedgerCall) → LedgerStands ledger.now calls → result ≡ work_at calls (live_of now.0) inc instant }
{
    waited_for(ledger.standing(inc, instant, now)?, inc, instant)
}

/// The first entry of a shard that is to be closed, or whose attempt is to begin.
fn first_act(ledger: &Ledger, shard: u8, now: Moment) -> Option<Work>
    requires { shard < SHARDS }
    ensures { (calls : List LedgerCall) → LedgerStands ledger.now calls → IsFirstWork calls (questions.ToAct now.0) shard (act_of now.0) result }
{
    let (inc, instant) = ledger.first_due(shard, now)?;
    act_at(ledger, inc, instant, now)
}

/// The first entry of a shard whose attempt is in the air.
fn first_wait(ledger: &Ledger, shard: u8, now: Moment) -> Option<Work>
    requires { shard < SHARDS }
    ensures { (calls : List LedgerCall) → LedgerStands ledger.now calls → IsFirstWork calls questions.ToWait shard (live_of now.0) result }
{
    let (inc, instant) = ledger.first_live(shard)?;
    wait_at(ledger, inc, instant, now)
}

/// The first of what may be to do: an incarnation to enter, an entry to act on, a schedule to complete, an attempt to wait
/// for.
fn first_of(
    entering: Option<u32>,
    acting: Option<Work>,
    completing: Option<u32>,
    waiting: Option<Work>,
) -> Work
    ensures { result ≡ first_of entering acting completing waiting }
{
    if let Some(inc) = entering {
        return Work::Enter { inc };
    }
    if let Some(work) = acting {
        return work;
    }
    if let Some(inc) = completing {
        return Work::Complete { inc };
    }
    waiting.unwrap_or(Work::Settled)
}

/// The next work of a shard at a moment: the least incarnation with an occurrence without an entry, else the first entry
/// to be closed or begun, else the least finished schedule, else the first entry whose attempt is in the air.
pub fn next_work(parts: &Parts, shard: u8, now: Moment) -> Work
    requires { shard < SHARDS }
    ensures { (h : History) → Stands parts.now h → result ≡ work (seen calendar h) shard now.0 }
{
    work_is_by_dates();
    first_entries_are_found();
    let entering = parts.next.first_come(shard, now.0);
    let acting = first_act(&parts.ledger, shard, now);
    let completing = parts.finished.first_come(shard, now.0);
    let waiting = first_wait(&parts.ledger, shard, now);
    first_of(entering, acting, completing, waiting)
}

impl Parts {
    /// The next work of a shard at a moment, whichever it is: the least incarnation with an occurrence without an entry,
    /// else the first entry to be closed or begun, else the least finished schedule, else the first entry whose attempt is
    /// in the air, else nothing.
    pub fn next_work(&self, shard: u8, now: Moment) -> Work
        requires { shard < SHARDS }
        ensures { (h : History) → Stands self.now h → result ≡ work (seen calendar h) shard now.0 }
    {
        next_work(self, shard, now)
    }
}
