ghost use Rattle.std.specs.Prelude.{◌≡◌, ◌-◌, ◌+◌, ◌^◌, ◌<◌, ◌≤◌, OnOk, IfOk};
ghost use Rattle.sched_plain.specs.declared.step.Step.TheVariants as steps;
ghost use Rattle.sched_plain.specs.History.{History, beginning, based};
ghost use Rattle.sched_plain.specs.Base.{Base};
ghost use Rattle.sched_plain.specs.Leases.{freed, is_held, is_taker};
ghost use Rattle.plain_words.specs.declared.moment.Moment.{Moment as TheMoment};
ghost use Rattle.policy_rules.specs.Shards.{holder_at, resumed_at, AreResumed, AreOf, ChangesIfOk, ChangesAll, Follows, IsRefusedOnceRisen, taking, renewing, releasing};

use crate::refusals::{Held, Stale};
use sched_plain::{Holder, LAST_MOMENT, LEASE_SECONDS, Moment, SHARDS};
use std::marker::Model;

/// How many shards there are.
const SHARD_COUNT: usize = SHARDS as usize;

/// A shard that nobody took.
const UNTAKEN: Holder = Holder {
    worker: 0,
    epoch: 0,
    until: 0,
};

/// Who holds each of the shards, with which epoch, until when. An epoch is the number of a taking: each taking raises
/// the shard's by one, and a renewal keeps it.
#[derive(Debug, Drop)]
pub struct Leases {
    holders: [Holder; SHARD_COUNT],
}

impl Model for Leases {
    ghost use Rattle.std.specs.Prelude.{List};
    ghost use Rattle.sched_plain.specs.declared.holder.Holder.{Holder};

    ghost Value = { List Holder };

    ghost view = { λ l. l.holders };
}

impl Leases {
    /// Free shards that nobody took.
    pub fn new() -> Leases
        ensures { AreOf beginning result }
    {
        Leases {
            holders: [UNTAKEN; SHARD_COUNT],
        }
    }

    /// Free shards with these epochs, each by its last taker. A shard with epoch 0 has no taker, whatever number stands
    /// for it.
    pub fn resume(epochs: [u64; SHARD_COUNT], takers: [u32; SHARD_COUNT]) -> Leases
        ensures holders { AreResumed epochs takers result }
        ensures based { (b : Base) (kept : History) → b.epochs ≡ epochs → b.takers ≡ takers → AreOf (based b kept) result }
    {
        Leases {
            holders: resumed(epochs, takers),
        }
    }

    /// Who last took a shard, its epoch, and until when it is held, 0 where it is free.
    pub fn holder(&self, shard: u8) -> Holder
        requires { shard < SHARDS }
        ensures { result ≡ holder_at self.now shard }
    {
        self.holders[shard as usize]
    }

    /// Gives a shard to a worker for a minute and answers its new epoch, one more than before. Another worker's lease
    /// that lasts past `now` is in the way, and then nothing changes.
    pub fn take(&mut self, shard: u8, worker: u32, now: Moment) -> Result<u64, Held>
        requires shard { shard < SHARDS }
        requires now { now.0 ≤ LAST_MOMENT }
        requires epochs_left { (holder_at self.old shard).epoch < 2 ^ 64 - 1 }
        ensures answer { result ≡ taking (holder_at self.old shard) worker now.0 }
        ensures change { ChangesIfOk result shard (λ epoch held. record { worker = worker; epoch = epoch; until = now.0 + LEASE_SECONDS }) self.old self.new }
        ensures step { IfOk result (λ epoch. Follows (steps.Lease now shard worker epoch (now.0 + LEASE_SECONDS)) self.old self.new) }
    {
        let held = self.holders[shard as usize];
        if is_held(held, worker, now.0) {
            return Err(Held {
                worker: held.worker,
                until: held.until,
            });
        }
        let epoch = held.epoch + 1;
        self.holders[shard as usize] = Holder {
            worker,
            epoch,
            until: now.0 + LEASE_SECONDS,
        };
        Ok(epoch)
    }

    /// Makes the lease of the worker that took the shard with this epoch, the last one, last for a minute from `now`,
    /// and answers until when that is. Where the shard's epoch is another, nothing changes.
    pub fn renew(&mut self, shard: u8, worker: u32, epoch: u64, now: Moment) -> Result<u64, Stale>
        requires shard { shard < SHARDS }
        requires now { now.0 ≤ LAST_MOMENT }
        ensures answer { result ≡ renewing (holder_at self.old shard) worker epoch now.0 }
        ensures stale { IsRefusedOnceRisen result (holder_at self.old shard) worker epoch }
        ensures change { ChangesIfOk result shard (λ until held. record held { until = until }) self.old self.new }
        ensures step { IfOk result (λ until. Follows (steps.Lease now shard worker epoch until) self.old self.new) }
    {
        let held = self.holders[shard as usize];
        if !is_taker(held, worker, epoch) {
            return Err(Stale { epoch: held.epoch });
        }
        let until = now.0 + LEASE_SECONDS;
        self.holders[shard as usize] = Holder { until, ..held };
        Ok(until)
    }

    /// Frees the shard of the worker that took it with this epoch, the last one. Where the shard's epoch is another,
    /// nothing changes.
    pub fn release(&mut self, shard: u8, worker: u32, epoch: u64) -> Result<(), Stale>
        requires { shard < SHARDS }
        ensures answer { result ≡ releasing (holder_at self.old shard) worker epoch }
        ensures stale { IsRefusedOnceRisen result (holder_at self.old shard) worker epoch }
        ensures change { ChangesIfOk result shard (λ nothing. freed) self.old self.new }
        ensures step { (at : TheMoment) → OnOk result (Follows (steps.Release at shard worker epoch) self.old self.new) }
    {
        let held = self.holders[shard as usize];
        if !is_taker(held, worker, epoch) {
            return Err(Stale { epoch: held.epoch });
        }
        self.holders[shard as usize] = freed(held);
        Ok(())
    }

    /// Frees all shards and keeps their epochs and takers.
    pub fn free_all(&mut self)
        ensures change { ChangesAll freed self.old self.new }
        ensures step { (at : TheMoment) → Follows (steps.Boot at) self.old self.new }
    {
        free_each(&mut self.holders);
    }
}

/// Frees each shard.
fn free_each(holders: &mut [Holder; SHARD_COUNT])
    ensures { ChangesAll freed holders.old holders.new }
{
    for shard in 0..SHARD_COUNT {
        holders[shard] = freed(holders[shard]);
    }
}

/// Free shards with these epochs and takers.
fn resumed(epochs: [u64; SHARD_COUNT], takers: [u32; SHARD_COUNT]) -> [Holder; SHARD_COUNT]
    ensures { AreResumed epochs takers result }
{
    let mut holders = [UNTAKEN; SHARD_COUNT];
    for shard in 0..SHARD_COUNT {
        holders[shard] = resumed_at(&epochs, &takers, shard);
    }
    holders
}

/// A free shard, with its epoch and its last taker.
#[tactic(auto, using(crate::proofs::ShardLemmas::number_of_shard))]
fn resumed_at(epochs: &[u64; SHARD_COUNT], takers: &[u32; SHARD_COUNT], shard: usize) -> Holder
    requires { shard < SHARDS }
    ensures { result ≡ resumed_at epochs.now takers.now shard }
{
    Holder {
        worker: takers[shard],
        epoch: epochs[shard],
        until: 0,
    }
}

/// Another worker holds the shard past this moment.
fn is_held(held: Holder, worker: u32, now: u64) -> bool
    ensures { result ≡ is_held held now worker }
{
    now < held.until && worker != held.worker
}

/// This worker took the shard with this epoch, the last one.
fn is_taker(held: Holder, worker: u32, epoch: u64) -> bool
    ensures { result ≡ is_taker held worker epoch }
{
    0 < epoch && epoch == held.epoch && worker == held.worker
}

/// The shard given back.
fn freed(held: Holder) -> Holder
    ensures { result ≡ freed held }
{
    Holder { until: 0, ..held }
}
