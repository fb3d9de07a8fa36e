//! One shard: taken, worked until it is settled, swept and given back.
ghost use Rattle.std.specs.Prelude.{◌≡◌, ◌≢◌, ℕ, ◌<◌, ◌≤◌, ◌∷◌, List, IfErr};
ghost use Rattle.sched_plain.specs.declared.work.Work.TheVariants.{Settled};
ghost use Rattle.step_keeper.specs.Carrying.{Shows};
ghost use Rattle.durable_book.specs.Acts.{DiskRose};
ghost use Rattle.durable_book.specs.Doubts.{IsLeft};
ghost use Rattle.durable_book.specs.Faults.{grow_denial};
ghost use Rattle.timer_work.specs.Going.{Outside, outside};
ghost use Rattle.timer_work.specs.Parts.{LivesAt, Wants, Asks, Moves, Handles, Settles, Marks};
ghost use Rattle.timer_work.specs.Places.{Before, AtWork, Unreleased};

use crate::sweep::attempt::attempt;
use crate::sweep::entry::{close_next, complete_next, enter_next};
use crate::sweep::stops::{hold_stop, lease_stop, swept_stop};
use durable_book::{GrowFault, lease, release, swept};
use policy_rules::Picker;
use sched_plain::{LAST_MOMENT, Moment, SHARDS, Work};
use std::alloc::Global;
use step_keeper::Keeper;
use step_machine::Machine;
use target_link::Link;

/// The worker that sweeps.
const SWEEPER: u32 = 0;

/// Takes a shard.
fn take_shard<K: Keeper>(keeper: &mut K, at: Moment, shard: u8) -> Result<(), GrowFault>
    requires moment { at.0 ≤ LAST_MOMENT }
    requires later { K.latest keeper.old ≤ at.0 }
    requires shard { shard < SHARDS }
    requires lives { LivesAt (K.stands keeper.old) at.0 (λ shards. Before (shard ∷ shards)) }
    ensures went { (shards : List ℕ) (o : Outside) → Moves (K.stands keeper.old) (K.stands keeper.new) (K.held keeper.new) (K.full keeper.new) at.0 (Before (shard ∷ shards)) o (AtWork shard shards) o result }
    ensures left { IfErr result (λ fault. IsLeft (grow_denial fault) (K.doubt keeper.new)) }
    ensures disk { IfErr result (λ fault. DiskRose (K.faults keeper.old) (K.faults keeper.new) (grow_denial fault)) }
    ensures latest { K.latest keeper.new ≤ at.0 }
    ensures faults { K.faults keeper.old ≤ K.faults keeper.new }
{
    match lease(keeper, at, shard, SWEEPER) {
        Ok(_) => Ok(()),
        Err(fault) => Err(lease_stop(fault)),
    }
}

/// The next work of a shard.
fn next_work<K: Keeper>(keeper: &K, at: Moment, shard: u8) -> Work
    requires moment { at.0 ≤ LAST_MOMENT }
    requires later { K.latest keeper.now ≤ at.0 }
    requires shard { shard < SHARDS }
    ensures { Shows (K.stands keeper.now) (Asks at.0 shard result) }
{
    keeper.book().next_work(shard, at)
}

/// Does the next work of a shard.
fn do_next<K: Keeper, P: Picker, L: Link>(
    alloc: Global,
    keeper: &mut K,
    at: Moment,
    next: Work,
    picker: &mut P,
    link: &mut L,
) -> Result<(), GrowFault>
    requires moment { at.0 ≤ LAST_MOMENT }
    requires later { K.latest keeper.old ≤ at.0 }
    requires wanted { (shard : ℕ) × Wants (K.stands keeper.old) at.0 shard next }
    requires some { next ≢ Settled }
    ensures done { Handles (K.stands keeper.old) (K.stands keeper.new) (K.held keeper.new) (K.full keeper.new) at.0 next
        (outside (P.told picker.old) (L.told link.old)) (outside (P.told picker.new) (L.told link.new)) result }
    ensures left { IfErr result (λ fault. IsLeft (grow_denial fault) (K.doubt keeper.new)) }
    ensures disk { IfErr result (λ fault. DiskRose (K.faults keeper.old) (K.faults keeper.new) (grow_denial fault)) }
    ensures latest { K.latest keeper.new ≤ at.0 }
    ensures faults { K.faults keeper.old ≤ K.faults keeper.new }
    ensures losses { L.losses link.old ≤ L.losses link.new }
{
    match next {
        Work::Enter { inc } => enter_next(alloc, keeper, at, inc, picker),
        Work::Close { inc, instant, .. } => close_next(keeper, at, inc, instant),
        Work::Begin { inc, instant } => attempt(alloc, keeper, at, inc, instant, link),
        Work::Complete { inc } => complete_next(keeper, at, inc),
        Work::Live { .. } => unreachable!(),
        Work::Settled => unreachable!(),
    }
}

/// Does the work of a shard until it is settled.
fn work_until_settled<K: Keeper, P: Picker, L: Link>(
    alloc: Global,
    keeper: &mut K,
    at: Moment,
    shard: u8,
    picker: &mut P,
    link: &mut L,
) -> Result<(), GrowFault>
    requires moment { at.0 ≤ LAST_MOMENT }
    requires later { K.latest keeper.old ≤ at.0 }
    requires shard { shard < SHARDS }
    requires lives { LivesAt (K.stands keeper.old) at.0 (AtWork shard) }
    ensures settled { (shards : List ℕ) → Settles (K.stands keeper.old) (K.stands keeper.new) (K.held keeper.new) (K.full keeper.new) at.0 shard shards
        (outside (P.told picker.old) (L.told link.old)) (outside (P.told picker.new) (L.told link.new)) result }
    ensures left { IfErr result (λ fault. IsLeft (grow_denial fault) (K.doubt keeper.new)) }
    ensures disk { IfErr result (λ fault. DiskRose (K.faults keeper.old) (K.faults keeper.new) (grow_denial fault)) }
    ensures latest { K.latest keeper.new ≤ at.0 }
    ensures faults { K.faults keeper.old ≤ K.faults keeper.new }
    ensures losses { L.losses link.old ≤ L.losses link.new }
{
    let mut next = next_work(keeper, at, shard);
    // Each work leaves less, and a shard has at most three for each occurrence of fewer than 2^32 schedules, so it is settled
    // before the bound.
    'working: for _done in 0..u64::MAX {
        if let Work::Settled = next {
            return Ok(());
        }
        if let Err(fault) = do_next(alloc, keeper, at, next, picker, link) {
            return Err(fault);
        }
        next = next_work(keeper, at, shard);
    }
    unreachable!()
}

/// Marks a shard swept whose work is settled.
fn mark_swept<K: Keeper>(keeper: &mut K, at: Moment, shard: u8) -> Result<(), GrowFault>
    requires moment { at.0 ≤ LAST_MOMENT }
    requires later { K.latest keeper.old ≤ at.0 }
    requires shard { shard < SHARDS }
    requires wanted { Wants (K.stands keeper.old) at.0 shard Settled }
    ensures swept { (shards : List ℕ) (o : Outside) → Marks (K.stands keeper.old) (K.stands keeper.new) (K.held keeper.new) (K.full keeper.new) at.0 shard shards o result }
    ensures left { IfErr result (λ fault. IsLeft (grow_denial fault) (K.doubt keeper.new)) }
    ensures disk { IfErr result (λ fault. DiskRose (K.faults keeper.old) (K.faults keeper.new) (grow_denial fault)) }
    ensures latest { K.latest keeper.new ≤ at.0 }
    ensures faults { K.faults keeper.old ≤ K.faults keeper.new }
{
    match swept(keeper, at, shard) {
        Ok(()) => Ok(()),
        Err(fault) => Err(swept_stop(fault)),
    }
}

/// Gives a shard back.
fn give_back<K: Keeper>(keeper: &mut K, at: Moment, shard: u8) -> Result<(), GrowFault>
    requires moment { at.0 ≤ LAST_MOMENT }
    requires later { K.latest keeper.old ≤ at.0 }
    requires shard { shard < SHARDS }
    requires lives { LivesAt (K.stands keeper.old) at.0 (Unreleased shard) }
    ensures went { (shards : List ℕ) (o : Outside) → Moves (K.stands keeper.old) (K.stands keeper.new) (K.held keeper.new) (K.full keeper.new) at.0 (Unreleased shard shards) o (Before shards) o result }
    ensures left { IfErr result (λ fault. IsLeft (grow_denial fault) (K.doubt keeper.new)) }
    ensures disk { IfErr result (λ fault. DiskRose (K.faults keeper.old) (K.faults keeper.new) (grow_denial fault)) }
    ensures latest { K.latest keeper.new ≤ at.0 }
    ensures faults { K.faults keeper.old ≤ K.faults keeper.new }
{
    let epoch = keeper.book().holder(shard).epoch;
    match release(keeper, at, shard, SWEEPER, epoch) {
        Ok(()) => Ok(()),
        Err(fault) => Err(hold_stop(fault)),
    }
}

/// Takes a shard, does its work until it is settled, marks it swept and gives it back.
pub(crate) fn sweep_shard<K: Keeper, P: Picker, L: Link>(
    alloc: Global,
    keeper: &mut K,
    at: Moment,
    shard: u8,
    picker: &mut P,
    link: &mut L,
) -> Result<(), GrowFault>
    requires moment { at.0 ≤ LAST_MOMENT }
    requires later { K.latest keeper.old ≤ at.0 }
    requires shard { shard < SHARDS }
    requires lives { LivesAt (K.stands keeper.old) at.0 (λ shards. Before (shard ∷ shards)) }
    ensures went { (shards : List ℕ) → Moves (K.stands keeper.old) (K.stands keeper.new) (K.held keeper.new) (K.full keeper.new) at.0
        (Before (shard ∷ shards)) (outside (P.told picker.old) (L.told link.old)) (Before shards) (outside (P.told picker.new) (L.told link.new)) result }
    ensures left { IfErr result (λ fault. IsLeft (grow_denial fault) (K.doubt keeper.new)) }
    ensures disk { IfErr result (λ fault. DiskRose (K.faults keeper.old) (K.faults keeper.new) (grow_denial fault)) }
    ensures latest { K.latest keeper.new ≤ at.0 }
    ensures faults { K.faults keeper.old ≤ K.faults keeper.new }
    ensures losses { L.losses link.old ≤ L.losses link.new }
{
    if let Err(fault) = take_shard(keeper, at, shard) {
        return Err(fault);
    }
    if let Err(fault) = work_until_settled(alloc, keeper, at, shard, picker, link) {
        return Err(fault);
    }
    if let Err(fault) = mark_swept(keeper, at, shard) {
        return Err(fault);
    }
    if let Err(fault) = give_back(keeper, at, shard) {
        return Err(fault);
    }
    Ok(())
}
