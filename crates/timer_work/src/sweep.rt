//! Sweeps: worker 0 does the work of each shard until it is settled, and sends each attempt.
//!
//! Between the Begin of an attempt and its End nothing wants memory: what the step, the request and the reply want is made
//! before the attempt is begun.
ghost use Rattle.std.specs.Prelude.{◌≤◌, [], OnOk, IfErr};
ghost use Rattle.sched_calls.specs.Serves.{all_shards};
ghost use Rattle.step_keeper.specs.Carrying.{CarriesWhere, LivesWhere};
ghost use Rattle.durable_book.specs.Acts.{DiskRose};
ghost use Rattle.durable_book.specs.Doubts.{IsOwnDoubt, IsLeft};
ghost use Rattle.durable_book.specs.Faults.{grow_denial};
ghost use Rattle.timer_work.specs.Swept.{IsFree, SweepsAll, CutsSweep};
ghost use Rattle.timer_work.specs.Going.{outside};
ghost use Rattle.timer_work.specs.Parts.{Moves};
ghost use Rattle.timer_work.specs.Places.{Before, Fit};

mod attempt;
mod entry;
mod request;
mod shard;
mod stops;

use crate::sweep::shard::sweep_shard;
use durable_book::{GrowFault, mend};
use policy_rules::Picker;
pub use request::{ReadyRequest, post_one};
use sched_plain::{LAST_MOMENT, Moment, SHARDS};
use std::alloc::Global;
use step_keeper::Keeper;
use target_link::Link;

/// Sweeps the shards one after another.
fn sweep_shards<K: Keeper, P: Picker, L: Link>(
    alloc: Global,
    keeper: &mut K,
    at: Moment,
    picker: &mut P,
    link: &mut L,
) -> Result<(), GrowFault>
    requires moment { at.0 ≤ LAST_MOMENT }
    requires later { K.latest keeper.old ≤ at.0 }
    requires lives { LivesWhere (Fit at.0 (Before all_shards)) (K.stands keeper.old) }
    ensures went { Moves (K.stands keeper.old) (K.stands keeper.new) (K.held keeper.new) (K.full keeper.new) at.0
        (Before all_shards) (outside (P.told picker.old) (L.told link.old)) (Before []) (outside (P.told picker.new) (L.told link.new)) result }
    ensures left { IfErr result (λ fault. IsLeft (grow_denial fault) (K.doubt keeper.new)) }
    ensures disk { IfErr result (λ fault. DiskRose (K.faults keeper.old) (K.faults keeper.new) (grow_denial fault)) }
    ensures latest { K.latest keeper.new ≤ at.0 }
    ensures faults { K.faults keeper.old ≤ K.faults keeper.new }
    ensures losses { L.losses link.old ≤ L.losses link.new }
{
    'sweeping: for shard in 0..SHARDS {
        if let Err(fault) = sweep_shard(alloc, keeper, at, shard, picker, link) {
            return Err(fault);
        }
    }
    Ok(())
}

/// Worker 0 takes each shard in order, does its work until it is settled, marks it swept and gives it back. Each attempt is sent
/// by the link. Where the sweep is cut it stops behind a step, and can be begun again.
pub fn sweep_all<K: Keeper, P: Picker, L: Link>(
    alloc: Global,
    keeper: &mut K,
    at: Moment,
    picker: &mut P,
    link: &mut L,
) -> Result<(), GrowFault>
    requires moment { at.0 ≤ LAST_MOMENT }
    requires later { K.latest keeper.old ≤ at.0 }
    requires free { LivesWhere (IsFree (K.doubt keeper.old) at.0) (K.held keeper.old) }
    ensures swept { OnOk result (CarriesWhere (IsFree (K.doubt keeper.old) at.0) (K.held keeper.old) (K.stands keeper.new)
        (SweepsAll (K.doubt keeper.old) at.0 (P.told picker.old) (P.told picker.new) (L.told link.old) (L.told link.new))) }
    ensures cut { IfErr result (λ fault. CarriesWhere (IsFree (K.doubt keeper.old) at.0) (K.held keeper.old) (K.held keeper.new)
        (CutsSweep (K.full keeper.new) (K.doubt keeper.old) at.0 (P.told picker.old) (P.told picker.new) (L.told link.old) (L.told link.new) fault)) }
    ensures left { IsOwnDoubt (K.doubt keeper.old) → IfErr result (λ fault. IsLeft (grow_denial fault) (K.doubt keeper.new)) }
    ensures disk { IfErr result (λ fault. DiskRose (K.faults keeper.old) (K.faults keeper.new) (grow_denial fault)) }
    ensures latest { K.latest keeper.new ≤ at.0 }
    ensures faults { K.faults keeper.old ≤ K.faults keeper.new }
    ensures losses { L.losses link.old ≤ L.losses link.new }
{
    if let Err(_) = mend(keeper) {
        return Err(GrowFault::DiskFault);
    }
    if let Err(fault) = sweep_shards(alloc, keeper, at, picker, link) {
        return Err(fault);
    }
    Ok(())
}
