//! The rules of attempts, closes and leases, over the ledger and the leases.
ghost use Rattle.std.specs.Prelude.{◌≡◌, ◌<◌};
ghost use Rattle.plain_words.specs.Lists.{first_some};
ghost use Rattle.plain_words.specs.Ids.{shard_of};
ghost use Rattle.sched_plain.specs.Rules.{begin_table, end_table, close_table, lease_table, release_table};
ghost use Rattle.policy_rules.specs.Shards.{holder_at};
ghost use Rattle.ledger_rows.specs.State.{filed_in};

use ledger_rows::Ledger;
use policy_rules::Leases;
use sched_plain::{Moment, Reason, SHARDS, Why, shard_of};

/// The first rule that a Lease breaks.
pub fn lease_why(leases: &Leases, at: Moment, shard: u8, worker: u32, epoch: u64) -> Option<Why>
    requires { shard < SHARDS }
    ensures { result ≡ first_some (lease_table (holder_at leases.now shard) at.0 worker epoch) }
{
    step_rules::lease_broken(leases.holder(shard), at, worker, epoch)
}

/// The first rule that a Release breaks.
pub fn release_why(leases: &Leases, shard: u8, worker: u32, epoch: u64) -> Option<Why>
    requires { shard < SHARDS }
    ensures { result ≡ first_some (release_table (holder_at leases.now shard) worker epoch) }
{
    step_rules::release_broken(leases.holder(shard), worker, epoch)
}

/// The first rule that a Begin breaks.
pub fn begin_why(
    leases: &Leases,
    ledger: &Ledger,
    at: Moment,
    inc: u32,
    instant: u64,
    number: u16,
    epoch: u64,
) -> Option<Why>
    ensures { result ≡ first_some (begin_table (holder_at leases.now (shard_of inc)) (filed_in ledger.now.lanes inc instant) at.0 inc instant number epoch) }
{
    step_rules::begin_broken(
        leases.holder(shard_of(inc)),
        ledger.filed(inc, instant),
        ledger.standing(inc, instant, at),
        at,
        inc,
        instant,
        number,
        epoch,
    )
}

/// The first rule that an End breaks.
pub fn end_why(ledger: &Ledger, inc: u32, instant: u64, number: u16) -> Option<Why>
    ensures { result ≡ first_some (end_table (filed_in ledger.now.lanes inc instant) number) }
{
    step_rules::end_broken(ledger.filed(inc, instant), number)
}

/// The first rule that a Close breaks.
pub fn close_why(ledger: &Ledger, at: Moment, inc: u32, instant: u64, reason: Reason) -> Option<Why>
    ensures { result ≡ first_some (close_table (filed_in ledger.now.lanes inc instant) at.0 inc instant reason) }
{
    step_rules::close_broken(
        ledger.filed(inc, instant),
        ledger.standing(inc, instant, at),
        at,
        inc,
        instant,
        reason,
    )
}
