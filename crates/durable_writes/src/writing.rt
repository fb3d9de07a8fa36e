//! A write served.
ghost use Rattle.std.specs.Prelude.{◌≡◌, ◌≤◌, ℕ, true, None, List, IfOk, IfErr, Ok as Good};
ghost use Rattle.std.specs.Prelude.{Option as Perhaps};
ghost use Rattle.zone_occ.specs.declared.zone_files.NamedZone.{NamedZone};
ghost use Rattle.sched_plain.specs.Legal.{IsLegal};
ghost use Rattle.sched_plain.specs.Validity.{IsWrite};
ghost use Rattle.sched_calls.specs.Serves.{is_zone};
ghost use Rattle.book_parts.specs.Stands.{calendar};
ghost use Rattle.step_keeper.specs.Carrying.{Carries, CarriesWhere, Lives, LivesWhere, Shows};
ghost use Rattle.sweep_laws.specs.ValidLaws.{IsGood};
ghost use Rattle.write_plans.specs.declared.plan.Plan.TheVariants as plans;
ghost use Rattle.write_plans.specs.Planning.{IsPlanned};
ghost use Rattle.durable_writes.specs.Leading.{IsUnhindered, IsAccepted, StopsWrite};
ghost use Rattle.durable_book.specs.Doubts.{IsOwnDoubt};
ghost use Rattle.durable_writes.specs.Writing.{Writes, EndsWrite, HasRisen, IsLeftBy};
ghost use Rattle.durable_writes.specs.Zoning.{IsHad};

use crate::accepting::accept;
use crate::write_fault::{WriteFault, write_fault};
use crate::zoning::zone_bytes;
use durable_book::{add_lawful, mend};
use policy_rules::Picker;
use sched_calls::Reply;
use sched_plain::{Blob, LAST_MOMENT, Moment, Step, Write, ZoneName};
use std::alloc::Global;
use step_keeper::Keeper;
use step_machine::Machine;
use write_plans::Plan;
use zone_occ::ZoneFiles;

/// Serves a write that no rule stops, where no step is in doubt.
fn write_free<K: Keeper, P: Picker>(
    alloc: Global,
    keeper: &mut K,
    at: Moment,
    write: &Write,
    picker: &mut P,
) -> Result<Reply, WriteFault>
    requires moment { at.0 ≤ LAST_MOMENT }
    requires later { K.latest keeper.old ≤ at.0 }
    requires valid { IsWrite write.now }
    requires lives { LivesWhere (λ h. IsUnhindered write.now h × IsLegal calendar h) (K.stands keeper.old) }
    ensures done { IfOk result (λ reply. CarriesWhere (IsUnhindered write.now) (K.stands keeper.old) (K.stands keeper.new)
        (IsAccepted at.0 write.now (P.told picker.old) (P.told picker.new) reply)) }
    ensures stopped { IfErr result (λ fault. CarriesWhere (IsUnhindered write.now) (K.stands keeper.old) (K.held keeper.new)
        (StopsWrite (K.full keeper.new) at.0 write.now (P.told picker.old) (P.told picker.new) fault)) }
    ensures left { IfErr result (λ fault. IsLeftBy fault (K.doubt keeper.new)) }
    ensures risen { IfErr result (λ fault. (zone zone' : ℕ) → HasRisen (K.faults keeper.old) (K.faults keeper.new) zone zone' fault) }
    ensures latest { K.latest keeper.new ≤ at.0 }
    ensures faults { K.faults keeper.old ≤ K.faults keeper.new }
{
    match accept(alloc, keeper, at, write, picker) {
        Ok(reply) => Ok(reply),
        Err(fault) => Err(write_fault(fault)),
    }
}

/// Serves a write that needs this zone, with its bytes, where no step is in doubt.
fn write_with<K: Keeper, P: Picker>(
    alloc: Global,
    keeper: &mut K,
    at: Moment,
    write: &Write,
    name: ZoneName,
    bytes: Blob,
    picker: &mut P,
) -> Result<Reply, WriteFault>
    requires moment { at.0 ≤ LAST_MOMENT }
    requires later { K.latest keeper.old ≤ at.0 }
    requires valid { IsWrite write.now }
    requires lives { LivesWhere (λ h. IsGood calendar h at.0) (K.stands keeper.old) }
    requires planned { Shows (K.stands keeper.old) (λ h. IsPlanned calendar h at.0 write.now (plans.NeedsZone name)) }
    requires zone { is_zone calendar bytes ≡ true }
    ensures done { IfOk result (λ reply. (zones : Perhaps (List NamedZone)) → IsHad zones name bytes → Carries (K.stands keeper.old) (K.stands keeper.new)
        (Writes None at.0 write.now zones (P.told picker.old) (P.told picker.new) (Good reply))) }
    ensures ended { IfErr result (λ fault. (zones : Perhaps (List NamedZone)) → IsHad zones name bytes → Carries (K.stands keeper.old) (K.held keeper.new)
        (EndsWrite (K.full keeper.new) None at.0 write.now zones (P.told picker.old) (P.told picker.new) fault)) }
    ensures left { IfErr result (λ fault. IsLeftBy fault (K.doubt keeper.new)) }
    ensures risen { IfErr result (λ fault. (zone zone' : ℕ) → HasRisen (K.faults keeper.old) (K.faults keeper.new) zone zone' fault) }
    ensures latest { K.latest keeper.new ≤ at.0 }
    ensures faults { K.faults keeper.old ≤ K.faults keeper.new }
{
    if let Err(fault) = add_lawful(keeper, Step::Zone { at, name, bytes }) {
        return Err(write_fault(fault));
    }
    write_free(alloc, keeper, at, write, picker)
}

/// Serves a write that needs this zone, where no step is in doubt.
fn write_zoned<K: Keeper, Z: ZoneFiles, P: Picker>(
    alloc: Global,
    keeper: &mut K,
    at: Moment,
    write: &Write,
    name: ZoneName,
    zones: &mut Z,
    picker: &mut P,
) -> Result<Reply, WriteFault>
    requires moment { at.0 ≤ LAST_MOMENT }
    requires later { K.latest keeper.old ≤ at.0 }
    requires valid { IsWrite write.now }
    requires lives { LivesWhere (λ h. IsGood calendar h at.0) (K.stands keeper.old) }
    requires planned { Shows (K.stands keeper.old) (λ h. IsPlanned calendar h at.0 write.now (plans.NeedsZone name)) }
    ensures done { IfOk result (λ reply. Carries (K.stands keeper.old) (K.stands keeper.new)
        (Writes None at.0 write.now (Z.told zones.old) (P.told picker.old) (P.told picker.new) (Good reply))) }
    ensures ended { IfErr result (λ fault. Carries (K.stands keeper.old) (K.held keeper.new)
        (EndsWrite (K.full keeper.new) None at.0 write.now (Z.told zones.old) (P.told picker.old) (P.told picker.new) fault)) }
    ensures left { IfErr result (λ fault. IsLeftBy fault (K.doubt keeper.new)) }
    ensures risen { IfErr result (HasRisen (K.faults keeper.old) (K.faults keeper.new) (Z.faults zones.old) (Z.faults zones.new)) }
    ensures zones { Z.told zones.new ≡ Z.told zones.old }
    ensures zone_faults { Z.faults zones.old ≤ Z.faults zones.new }
    ensures latest { K.latest keeper.new ≤ at.0 }
    ensures faults { K.faults keeper.old ≤ K.faults keeper.new }
{
    match zone_bytes(alloc, zones, &name) {
        Ok(bytes) => write_with(alloc, keeper, at, write, name, bytes, picker),
        Err(fault) => Err(fault),
    }
}

/// Serves a write with this plan, where no step is in doubt.
fn write_planned<K: Keeper, Z: ZoneFiles, P: Picker>(
    alloc: Global,
    keeper: &mut K,
    at: Moment,
    write: &Write,
    plan: Plan,
    zones: &mut Z,
    picker: &mut P,
) -> Result<Reply, WriteFault>
    requires moment { at.0 ≤ LAST_MOMENT }
    requires later { K.latest keeper.old ≤ at.0 }
    requires valid { IsWrite write.now }
    requires lives { LivesWhere (λ h. IsGood calendar h at.0) (K.stands keeper.old) }
    requires planned { Shows (K.stands keeper.old) (λ h. IsPlanned calendar h at.0 write.now plan) }
    ensures done { IfOk result (λ reply. Carries (K.stands keeper.old) (K.stands keeper.new)
        (Writes None at.0 write.now (Z.told zones.old) (P.told picker.old) (P.told picker.new) (Good reply))) }
    ensures ended { IfErr result (λ fault. Carries (K.stands keeper.old) (K.held keeper.new)
        (EndsWrite (K.full keeper.new) None at.0 write.now (Z.told zones.old) (P.told picker.old) (P.told picker.new) fault)) }
    ensures left { IfErr result (λ fault. IsLeftBy fault (K.doubt keeper.new)) }
    ensures risen { IfErr result (HasRisen (K.faults keeper.old) (K.faults keeper.new) (Z.faults zones.old) (Z.faults zones.new)) }
    ensures zones { Z.told zones.new ≡ Z.told zones.old }
    ensures zone_faults { Z.faults zones.old ≤ Z.faults zones.new }
    ensures latest { K.latest keeper.new ≤ at.0 }
    ensures faults { K.faults keeper.old ≤ K.faults keeper.new }
{
    match plan {
        Plan::Refused(refusal) => Err(WriteFault::Refused(refusal)),
        Plan::Known(reply) => Ok(reply),
        Plan::NeedsZone(name) => write_zoned(alloc, keeper, at, write, name, zones, picker),
        Plan::CatchUp { .. } => write_free(alloc, keeper, at, write, picker),
        Plan::Ready(_) => write_free(alloc, keeper, at, write, picker),
    }
}

/// Serves a write, where no step is in doubt.
fn write_found<K: Keeper, Z: ZoneFiles, P: Picker>(
    alloc: Global,
    keeper: &mut K,
    at: Moment,
    write: &Write,
    zones: &mut Z,
    picker: &mut P,
) -> Result<Reply, WriteFault>
    requires moment { at.0 ≤ LAST_MOMENT }
    requires later { K.latest keeper.old ≤ at.0 }
    requires valid { IsWrite write.now }
    requires lives { Lives (K.stands keeper.old) }
    ensures done { IfOk result (λ reply. Carries (K.stands keeper.old) (K.stands keeper.new)
        (Writes None at.0 write.now (Z.told zones.old) (P.told picker.old) (P.told picker.new) (Good reply))) }
    ensures ended { IfErr result (λ fault. Carries (K.stands keeper.old) (K.held keeper.new)
        (EndsWrite (K.full keeper.new) None at.0 write.now (Z.told zones.old) (P.told picker.old) (P.told picker.new) fault)) }
    ensures left { IfErr result (λ fault. IsLeftBy fault (K.doubt keeper.new)) }
    ensures risen { IfErr result (HasRisen (K.faults keeper.old) (K.faults keeper.new) (Z.faults zones.old) (Z.faults zones.new)) }
    ensures zones { Z.told zones.new ≡ Z.told zones.old }
    ensures zone_faults { Z.faults zones.old ≤ Z.faults zones.new }
    ensures latest { K.latest keeper.new ≤ at.0 }
    ensures faults { K.faults keeper.old ≤ K.faults keeper.new }
{
    let Ok(plan) = keeper.book().plan_write(write, at) else {
        return Err(WriteFault::OutOfMemory);
    };
    write_planned(alloc, keeper, at, write, plan, zones, picker)
}

/// Serves a write at a moment. An accepted one is answered by its arn, or by nothing where it deletes; the same write under the
/// same token again by the same, and then nothing is added.
pub fn do_write<K: Keeper, Z: ZoneFiles, P: Picker>(
    alloc: Global,
    keeper: &mut K,
    at: Moment,
    write: &Write,
    zones: &mut Z,
    picker: &mut P,
) -> Result<Reply, WriteFault>
    requires moment { at.0 ≤ LAST_MOMENT }
    requires later { K.latest keeper.old ≤ at.0 }
    requires valid { IsWrite write.now }
    requires lives { Lives (K.held keeper.old) }
    ensures done { IfOk result (λ reply. Carries (K.held keeper.old) (K.stands keeper.new)
        (Writes (K.doubt keeper.old) at.0 write.now (Z.told zones.old) (P.told picker.old) (P.told picker.new) (Good reply))) }
    ensures ended { IfErr result (λ fault. Carries (K.held keeper.old) (K.held keeper.new)
        (EndsWrite (K.full keeper.new) (K.doubt keeper.old) at.0 write.now (Z.told zones.old) (P.told picker.old) (P.told picker.new) fault)) }
    ensures left { IsOwnDoubt (K.doubt keeper.old) → IfErr result (λ fault. IsLeftBy fault (K.doubt keeper.new)) }
    ensures risen { IfErr result (HasRisen (K.faults keeper.old) (K.faults keeper.new) (Z.faults zones.old) (Z.faults zones.new)) }
    ensures zones { Z.told zones.new ≡ Z.told zones.old }
    ensures zone_faults { Z.faults zones.old ≤ Z.faults zones.new }
    ensures latest { K.latest keeper.new ≤ at.0 }
    ensures faults { K.faults keeper.old ≤ K.faults keeper.new }
{
    if let Err(_) = mend(keeper) {
        return Err(WriteFault::DiskFault);
    }
    write_found(alloc, keeper, at, write, zones, picker)
}
