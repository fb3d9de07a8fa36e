ghost use Rattle.std.specs.Prelude.{◌≡◌, ◌+◌, ◌≤◌, ◌<◌, ◌^◌, ◌++◌, List, None, Some, if◌then◌else◌};
ghost use Rattle.plain_words.specs.Lists.{first_some, only_if};
ghost use Rattle.sched_plain.specs.declared.step.Step.TheVariants as steps;
ghost use Rattle.sched_plain.specs.Leases.{is_taking};
ghost use Rattle.sched_plain.specs.Ledger.{LedgerCall, Lost};
ghost use Rattle.sched_plain.specs.Rules.{lease_table};
ghost use Rattle.ledger_rows.specs.Air.{outside};
ghost use Rattle.ledger_rows.specs.State.{Stands as LedgerStands};
ghost use Rattle.policy_rules.specs.Shards.{holder_at, Follows};
ghost use Rattle.book_parts.specs.Stands.{Takes};

use book_parts::Parts;
use ledger_rows::Ledger;
use next_dates::steps_change_the_next_instant;
use policy_rules::Leases;
use sched_plain::{Holder, LAST_MOMENT, LEASE_SECONDS, Moment, SHARDS};
use work_order::steps_change_the_finished_date;

/// A Lease with this epoch takes the shard; any other renews.
fn is_taking(held: Holder, epoch: u64) -> bool
    ensures { result ≡ is_taking held epoch }
{
    held.epoch < epoch && epoch - held.epoch == 1
}

/// A taking loses the attempts of the shard that are in the air. A renewal loses none.
fn lose_taken(ledger: &mut Ledger, taking: bool, shard: u8, at: Moment)
    requires { at.0 ≤ LAST_MOMENT }
    ensures stands { (calls : List LedgerCall) → LedgerStands ledger.old calls → LedgerStands ledger.new (only_if taking (Lost (Some shard) at.0) ++ calls) }
    ensures air { ledger.new.flights ≡ (if taking then outside (Some shard) ledger.old.flights else ledger.old.flights) }
{
    if taking {
        ledger.lose(Some(shard), at);
    }
}

/// Gives a shard to a worker for a minute, or makes its lease last for one. What comes of a Lease that may not follow is not said.
fn hold(leases: &mut Leases, taking: bool, shard: u8, worker: u32, epoch: u64, at: Moment)
    requires shard { shard < SHARDS }
    requires at { at.0 ≤ LAST_MOMENT }
    requires taking { taking ≡ is_taking (holder_at leases.old shard) epoch }
    ensures { first_some (lease_table (holder_at leases.old shard) at.0 worker epoch) ≡ None → Follows (steps.Lease at shard worker epoch (at.0 + LEASE_SECONDS)) leases.old leases.new }
{
    if taking {
        let _ = leases.take(shard, worker, at);
    } else {
        let _ = leases.renew(shard, worker, epoch, at);
    }
}

/// A shard is leased for a minute: with the next epoch it is taken, and its attempts in the air are lost; with the same one
/// its lease is renewed. A lease lasts no other time.
pub fn lease(parts: &mut Parts, at: Moment, shard: u8, worker: u32, epoch: u64, until: u64)
    requires shard { shard < SHARDS }
    requires until { until ≡ at.0 + LEASE_SECONDS }
    requires forward { parts.old.moment ≤ at.0 }
    requires last { at.0 ≤ LAST_MOMENT }
    requires room { parts.old.steps < 2 ^ 62 }
    ensures { Takes parts.old parts.new (steps.Lease at shard worker epoch until) }
{
    let _ = until;
    steps_change_the_next_instant();
    steps_change_the_finished_date();
    let taking = is_taking(parts.leases.holder(shard), epoch);
    parts.moment = at;
    parts.steps += 1;
    lose_taken(&mut parts.ledger, taking, shard, at);
    hold(&mut parts.leases, taking, shard, worker, epoch, at);
}
