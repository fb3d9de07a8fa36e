//! The bytes of a zone that a write needs.
ghost use Rattle.std.specs.Prelude.{◌≡◌, ◌≤◌, ℕ, true, false, length, IfOk, IfErr};
ghost use Rattle.plain_words.specs.declared.limits.TheConstants.{LONGEST_ZONE as MOST_BYTES};
ghost use Rattle.sched_calls.specs.Serves.{is_zone};
ghost use Rattle.book_parts.specs.Stands.{calendar};
ghost use Rattle.durable_writes.specs.Writing.{HasRisen};
ghost use Rattle.durable_writes.specs.Zoning.{IsHad, IsNotHad, TellsLack};

use crate::write_fault::WriteFault;
use plain_words::LONGEST_ZONE;
use sched_plain::{Blob, ZoneName};
use std::alloc::Global;
use write_plans::zone_refusal;
use zone_occ::{Zone, ZoneAnswer, ZoneCallFault, ZoneFault, ZoneFiles};

/// What is told where a zone cannot be had.
fn refuse_zone(alloc: Global) -> WriteFault
    ensures { TellsLack (Unit {0}) result }
{
    match zone_refusal(alloc) {
        Ok(refusal) => WriteFault::Refused(refusal),
        Err(_) => WriteFault::OutOfMemory,
    }
}

/// Bytes that are not too many, where they are a zone.
fn read_zone(alloc: Global, bytes: Blob) -> Result<Blob, WriteFault>
    requires { length bytes ≤ MOST_BYTES }
    ensures had { IfOk result (λ zone. (zone ≡ bytes) × (is_zone calendar bytes ≡ true)) }
    ensures lacked { IfErr result (TellsLack (is_zone calendar bytes ≡ false)) }
{
    match Zone::read(alloc, bytes.as_bytes()) {
        Ok(_) => Ok(bytes),
        Err(ZoneFault::OutOfMemory) => Err(WriteFault::OutOfMemory),
        Err(_) => Err(refuse_zone(alloc)),
    }
}

/// Bytes, where they are a zone.
fn as_zone(alloc: Global, bytes: Blob) -> Result<Blob, WriteFault>
    ensures had { IfOk result (λ zone. (zone ≡ bytes) × (is_zone calendar bytes ≡ true)) }
    ensures lacked { IfErr result (TellsLack (is_zone calendar bytes ≡ false)) }
{
    if bytes.len() > LONGEST_ZONE {
        return Err(refuse_zone(alloc));
    }
    read_zone(alloc, bytes)
}

/// The bytes of a zone, from where zones are read.
pub(crate) fn zone_bytes<Z: ZoneFiles>(
    alloc: Global,
    zones: &mut Z,
    name: &ZoneName,
) -> Result<Blob, WriteFault>
    ensures zone { IfOk result (λ bytes. is_zone calendar bytes ≡ true) }
    ensures had { IfOk result (IsHad (Z.told zones.old) name.now) }
    ensures lacked { IfErr result (IsNotHad (Z.told zones.old) name.now) }
    ensures risen { IfErr result (λ fault. (disk disk' : ℕ) → HasRisen disk disk' (Z.faults zones.old) (Z.faults zones.new) fault) }
    ensures told { Z.told zones.new ≡ Z.told zones.old }
    ensures faults { Z.faults zones.old ≤ Z.faults zones.new }
{
    match zones.read(name) {
        Ok(ZoneAnswer::Present(bytes)) => as_zone(alloc, bytes),
        Ok(ZoneAnswer::Absent) => Err(refuse_zone(alloc)),
        Err(ZoneCallFault::Failed) => Err(WriteFault::ZoneFailed),
        Err(ZoneCallFault::OutOfMemory) => Err(WriteFault::OutOfMemory),
    }
}
