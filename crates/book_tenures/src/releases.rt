ghost use Rattle.std.specs.Prelude.{◌≡◌, ◌≤◌, ◌<◌, ◌^◌, None};
ghost use Rattle.plain_words.specs.Lists.{first_some};
ghost use Rattle.plain_words.specs.declared.moment.Moment.{Moment as TheMoment};
ghost use Rattle.sched_plain.specs.declared.step.Step.TheVariants as steps;
ghost use Rattle.sched_plain.specs.Rules.{release_table};
ghost use Rattle.policy_rules.specs.Shards.{holder_at, Follows};
ghost use Rattle.book_parts.specs.Stands.{Takes};

use book_parts::Parts;
use next_dates::steps_change_the_next_instant;
use policy_rules::Leases;
use sched_plain::{LAST_MOMENT, Moment, SHARDS};
use work_order::steps_change_the_finished_date;

/// Frees the shard of the worker that took it. What comes of a Release that may not follow is not said.
fn give_back(leases: &mut Leases, shard: u8, worker: u32, epoch: u64)
    requires { shard < SHARDS }
    ensures { first_some (release_table (holder_at leases.old shard) worker epoch) ≡ None → (at : TheMoment) → Follows (steps.Release at shard worker epoch) leases.old leases.new }
{
    let _ = leases.release(shard, worker, epoch);
}

/// A shard is given back.
pub fn release(parts: &mut Parts, at: Moment, shard: u8, worker: u32, epoch: u64)
    requires shard { shard < SHARDS }
    requires forward { parts.old.moment ≤ at.0 }
    requires last { at.0 ≤ LAST_MOMENT }
    requires room { parts.old.steps < 2 ^ 62 }
    ensures { Takes parts.old parts.new (steps.Release at shard worker epoch) }
{
    steps_change_the_next_instant();
    steps_change_the_finished_date();
    parts.moment = at;
    parts.steps += 1;
    give_back(&mut parts.leases, shard, worker, epoch);
}
