//! The rules of who holds a shard.
ghost use Rattle.std.specs.Prelude.{◌≡◌};
ghost use Rattle.plain_words.specs.Lists.{first_some};
ghost use Rattle.sched_plain.specs.Leases.{is_taking, is_held, is_taker};
ghost use Rattle.sched_plain.specs.Rules.{lease_table, release_table};

use sched_plain::{Holder, Moment, Why};

fn is_held(held: Holder, at: Moment, worker: u32) -> bool
    ensures { result ≡ is_held held at.0 worker }
{
    at.0 < held.until && worker != held.worker
}

fn is_taker(held: Holder, worker: u32, epoch: u64) -> bool
    ensures { result ≡ is_taker held worker epoch }
{
    0 < epoch && epoch == held.epoch && worker == held.worker
}

fn is_taking(held: Holder, epoch: u64) -> bool
    ensures { result ≡ is_taking held epoch }
{
    epoch > held.epoch && epoch - held.epoch == 1
}

/// A Lease takes the shard with the next epoch, `Held` where another worker holds it past the moment; or its taker renews
/// it with the same epoch. Any other is `Stale`.
pub fn lease_broken(held: Holder, at: Moment, worker: u32, epoch: u64) -> Option<Why>
    ensures { result ≡ first_some (lease_table held at.0 worker epoch) }
{
    if is_taking(held, epoch) && is_held(held, at, worker) {
        return Some(Why::Held {
            worker: held.worker,
            until: held.until,
        });
    }
    if !(is_taking(held, epoch) || is_taker(held, worker, epoch)) {
        return Some(Why::Stale { epoch: held.epoch });
    }
    None
}

/// A Release is `Stale` exactly where its worker is not the last taker with this epoch.
pub fn release_broken(held: Holder, worker: u32, epoch: u64) -> Option<Why>
    ensures { result ≡ first_some (release_table held worker epoch) }
{
    if is_taker(held, worker, epoch) {
        None
    } else {
        Some(Why::Stale { epoch: held.epoch })
    }
}
