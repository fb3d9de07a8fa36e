//! The zone of a name.
ghost use Rattle.std.specs.Prelude.{◌≡◌, ◌≤◌, Some, IfOk, IfErr};
ghost use Rattle.next_command.specs.declared.zone_found.FindFault.TheVariants as faults;
ghost use Rattle.next_command.specs.Answers.{zone_in};
ghost use Rattle.next_command.specs.Finding.{told_of, IsFound, IsFoundNamed, HasRisen};

use plain_words::ZoneName;
use std::alloc::Global;
use zone_occ::{Zone, ZoneAnswer, ZoneCallFault, ZoneFault, ZoneFiles};

/// What a name names.
#[derive(Debug, Drop)]
pub(crate) enum ZoneFound {
    /// This zone.
    Zone(Zone),
    /// Nothing that the source has.
    Absent,
    /// Bytes that are no zone.
    NotAZone,
}

/// Why that is not known.
#[derive(Debug, Clone, Copy, PartialEq, Eq)]
pub(crate) enum FindFault {
    /// The source failed.
    ZonesFailed,
    /// Memory was wanted.
    OutOfMemory,
}

/// What bytes are.
fn read_bytes(alloc: Global, bytes: &[u8]) -> Result<ZoneFound, FindFault>
    ensures found { IfOk result (λ found. zone_in (Some bytes.now) ≡ told_of found) }
    ensures memory { IfErr result (λ fault. fault ≡ faults.OutOfMemory) }
{
    match Zone::read(alloc, bytes) {
        Ok(zone) => Ok(ZoneFound::Zone(zone)),
        Err(ZoneFault::OutOfMemory) => Err(FindFault::OutOfMemory),
        Err(ZoneFault::TooLong { .. }) => Ok(ZoneFound::NotAZone),
        Err(ZoneFault::NotAZone) => Ok(ZoneFound::NotAZone),
    }
}

/// What a name that is not `UTC` names.
fn find_named<Z: ZoneFiles>(
    alloc: Global,
    name: &ZoneName,
    zones: &mut Z,
) -> Result<ZoneFound, FindFault>
    ensures found { IfOk result (IsFoundNamed (Z.told zones.old) name.now) }
    ensures risen { IfErr result (HasRisen (Z.faults zones.old) (Z.faults zones.new)) }
    ensures told { Z.told zones.new ≡ Z.told zones.old }
    ensures later { Z.faults zones.old ≤ Z.faults zones.new }
{
    match zones.read(name) {
        Ok(ZoneAnswer::Present(bytes)) => read_bytes(alloc, bytes.as_bytes()),
        Ok(ZoneAnswer::Absent) => Ok(ZoneFound::Absent),
        Err(ZoneCallFault::Failed) => Err(FindFault::ZonesFailed),
        Err(ZoneCallFault::OutOfMemory) => Err(FindFault::OutOfMemory),
    }
}

/// What a name names. `UTC` is built in.
pub(crate) fn find_zone<Z: ZoneFiles>(
    alloc: Global,
    name: &ZoneName,
    zones: &mut Z,
) -> Result<ZoneFound, FindFault>
    ensures found { IfOk result (IsFound (Z.told zones.old) name.now) }
    ensures risen { IfErr result (HasRisen (Z.faults zones.old) (Z.faults zones.new)) }
    ensures told { Z.told zones.new ≡ Z.told zones.old }
    ensures later { Z.faults zones.old ≤ Z.faults zones.new }
{
    if name.as_bytes() == b"UTC".as_slice() {
        return Ok(ZoneFound::Zone(Zone::utc()));
    }
    find_named(alloc, name, zones)
}
