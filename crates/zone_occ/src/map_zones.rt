ghost use Rattle.std.specs.Prelude.{◌≡◌, ◌+◌, ◌-◌, ◌^◌, ◌≤◌, ◌↔◌, min, Some, option_map, Contains, IfOk, IsErrOf, length, take};
ghost use Rattle.zone_occ.specs.Files.{zone_named, answer_of, IsTold, IsShort, IsCounted};

use crate::zone_files::{LONGEST_ANSWER, NamedZone, ZoneAnswer, ZoneCallFault, ZoneFiles};
use outside::FailingCalls;
use plain_words::{Blob, ZoneName};
use std::alloc::{AllocError, Global};
use std::marker::Model;

/// Zones in memory, which tell their bytes and fail at listed calls.
#[derive(Drop)]
pub struct MapZones {
    zones: Vec<NamedZone>,
    failing: FailingCalls,
}

impl Model for MapZones {
    ghost use Rattle.zone_occ.specs.Files.{MapText};

    ghost Value = { MapText };

    ghost view = { λ m. record { zones = m.zones.items; failing = m.failing } };
}

impl MapZones {
    /// These zones, of which the first of a name counts. The calls with the numbers in `failing` fail,
    /// counted from 1.
    pub fn new(zones: Vec<NamedZone>, failing: Vec<u64>) -> MapZones
        ensures { result
            ≡ record { zones = zones.items; failing = record { numbers = failing.items; calls = 0; faults = 0 } } }
    {
        MapZones {
            zones,
            failing: FailingCalls::new(failing),
        }
    }

    /// How many calls failed.
    pub fn faults(&self) -> u64
        ensures { result ≡ self.now.failing.faults }
    {
        self.failing.faults()
    }
}

fn find_zone<'z>(zones: &'z [NamedZone], name: &ZoneName) -> Option<&'z NamedZone>
    ensures { option_map (λ zone. zone.now) result ≡ zone_named zones.now name.now }
{
    zones.iter().find(|zone| zone.name == *name)
}

/// The bytes, of more than `LONGEST_ANSWER` the first so many.
fn front(bytes: &[u8]) -> &[u8]
    ensures front { result.now ≡ take LONGEST_ANSWER bytes.now }
    ensures short { length result.now ≤ LONGEST_ANSWER }
{
    if bytes.len() <= LONGEST_ANSWER {
        return bytes;
    }
    &bytes[..LONGEST_ANSWER]
}

fn copy_of(alloc: Global, bytes: &[u8]) -> Result<Blob, AllocError>
    ensures { IfOk result (λ copy. copy ≡ bytes.now) }
{
    Ok(Blob::from_vec(Vec::from_slice(alloc, bytes)?))
}

fn answer_for(alloc: Global, zone: Option<&NamedZone>) -> Result<ZoneAnswer, ZoneCallFault>
    ensures ok { IfOk result (λ answer. answer ≡ answer_of (option_map (λ z. z.now) zone.entry)) }
    ensures short { IfOk result IsShort }
    ensures err { IsErrOf result ZoneCallFault.Failed → ⊥ }
{
    let Some(zone) = zone else {
        return Ok(ZoneAnswer::Absent);
    };
    match copy_of(alloc, front(zone.bytes.as_bytes())) {
        Ok(bytes) => Ok(ZoneAnswer::Present(bytes)),
        Err(_) => Err(ZoneCallFault::OutOfMemory),
    }
}

impl ZoneFiles for MapZones {
    ghost told = { λ m. Some m.zones };

    ghost faults = { λ m. m.failing.faults };

    fn read(&mut self, name: &ZoneName) -> Result<ZoneAnswer, ZoneCallFault>
        ensures answer { IfOk result (IsTold (Some self.old.zones) name.now) }
        ensures short { IfOk result IsShort }
        ensures told { Some self.new.zones ≡ Some self.old.zones }
        ensures later { self.old.failing.faults ≤ self.new.failing.faults }
        ensures count { IsCounted result self.old.failing.faults self.new.failing.faults }

        // The list decides, and nothing else.
        ensures listed { IsErrOf result ZoneCallFault.Failed ↔ Contains self.old.failing.numbers self.new.failing.calls }
        ensures numbers { self.new.failing.numbers ≡ self.old.failing.numbers }
        ensures calls { self.new.failing.calls ≡ min (self.old.failing.calls + 1) (2 ^ 64 - 1) }
        ensures faults { IsErrOf result ZoneCallFault.Failed
            → self.new.failing.faults ≡ min (self.old.failing.faults + 1) (2 ^ 64 - 1) }
    {
        if self.failing.fails_next() {
            return Err(ZoneCallFault::Failed);
        }
        let alloc: Global = *self.zones.allocator();
        answer_for(alloc, find_zone(self.zones.as_slice(), name))
    }
}
