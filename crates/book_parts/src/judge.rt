//! Whether a step may follow: the rules of each kind over the parts.
ghost use Rattle.std.specs.Prelude.{◌≡◌, ◌<◌, None};
ghost use Rattle.plain_words.specs.Lists.{first_some};
ghost use Rattle.plain_words.specs.Ids.{shard_of};
ghost use Rattle.sched_plain.specs.declared.step.Step.TheVariants as steps;
ghost use Rattle.sched_plain.specs.Seen.{seen};
ghost use Rattle.sched_plain.specs.Work.{completable};
ghost use Rattle.sched_plain.specs.Rules.{kind_table};
ghost use Rattle.sched_plain.specs.History.{History};
ghost use Rattle.book_parts.specs.Stands.{Stands, calendar, Judged};

use crate::entries::{begin_why, close_why, end_why, lease_why, release_why};
use crate::parts::Parts;
use crate::works::next_work;
use sched_plain::{Moment, Reason, SHARDS, Verdict, Why};
use work_order::work_is_by_dates;

/// The first rule of its kind that a Lease breaks.
pub fn lease_judged(
    parts: &Parts,
    at: Moment,
    shard: u8,
    worker: u32,
    epoch: u64,
    until: u64,
) -> Option<Why>
    requires { shard < SHARDS }
    ensures { Judged parts.now (steps.Lease at shard worker epoch until) result }
{
    let _ = until;
    lease_why(&parts.leases, at, shard, worker, epoch)
}

/// The first rule of its kind that a Release breaks.
pub fn release_judged(parts: &Parts, at: Moment, shard: u8, worker: u32, epoch: u64) -> Option<Why>
    requires { shard < SHARDS }
    ensures { Judged parts.now (steps.Release at shard worker epoch) result }
{
    let _ = at;
    release_why(&parts.leases, shard, worker, epoch)
}

/// The first rule of its kind that a Begin breaks.
pub fn begin_judged(
    parts: &Parts,
    at: Moment,
    inc: u32,
    instant: u64,
    number: u16,
    epoch: u64,
) -> Option<Why>
    ensures { Judged parts.now (steps.Begin at inc instant number epoch) result }
{
    begin_why(
        &parts.leases,
        &parts.ledger,
        at,
        inc,
        instant,
        number,
        epoch,
    )
}

/// The first rule of its kind that an End breaks.
pub fn end_judged(
    parts: &Parts,
    at: Moment,
    inc: u32,
    instant: u64,
    number: u16,
    verdict: Verdict,
    status: u16,
) -> Option<Why>
    ensures { Judged parts.now (steps.End at inc instant number verdict status) result }
{
    let _ = (at, verdict, status);
    end_why(&parts.ledger, inc, instant, number)
}

/// The first rule of its kind that a Close breaks.
pub fn close_judged(
    parts: &Parts,
    at: Moment,
    inc: u32,
    instant: u64,
    reason: Reason,
) -> Option<Why>
    ensures { Judged parts.now (steps.Close at inc instant reason) result }
{
    close_why(&parts.ledger, at, inc, instant, reason)
}

/// Whether an incarnation is finished at a moment.
fn is_finished(parts: &Parts, inc: u32, at: Moment) -> bool
    ensures { (h : History) → Stands parts.now h → result ≡ completable (seen calendar h) inc at.0 }
{
    work_is_by_dates();
    match parts.finished.get(inc) {
        Some(since) => since <= at.0,
        None => false,
    }
}

/// The first rule of its kind that a Complete breaks.
pub fn complete_judged(parts: &Parts, at: Moment, inc: u32) -> Option<Why>
    ensures { Judged parts.now (steps.Complete at inc) result }
{
    step_rules::complete_broken(is_finished(parts, inc, at))
}

/// The first rule of its kind that a Swept breaks.
pub fn swept_judged(parts: &Parts, at: Moment, shard: u8) -> Option<Why>
    requires { shard < SHARDS }
    ensures { Judged parts.now (steps.Swept at shard) result }
{
    step_rules::swept_broken(next_work(parts, shard, at))
}
