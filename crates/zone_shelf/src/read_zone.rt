ghost use Rattle.std.specs.Prelude.{◌≡◌, Some, IsSome, IfOk, IfErr, OnOk};
ghost use Rattle.zone_occ.specs.ZoneBytes.{zone_of};
ghost use Rattle.zone_shelf.specs.Keeping.{IsKeepFault};

use plain_words::{Blob, TryCopy};
use std::alloc::Global;
use std::marker::Model;
use zone_occ::{Zone, ZoneFault};

/// Bytes that are a time zone, with the zone that was read from them. Contracts see the bytes.
#[derive(Drop)]
pub struct ReadZone {
    bytes: Blob,
    zone: Zone,
}

impl Model for ReadZone {
    ghost use Rattle.std.specs.Prelude.{◌≡◌, ℕ, List, Some};
    ghost use Rattle.zone_occ.specs.ZoneBytes.{zone_of};

    ghost Value = { List ℕ };

    ghost view = { λ r. r.bytes };

    ghost invariant = { λ r. zone_of r.bytes ≡ Some r.zone };
}

impl ReadZone {
    /// Reads the zone of some bytes, which are copied.
    pub fn read(alloc: Global, bytes: &Blob) -> Result<ReadZone, ZoneFault>
        ensures ok { IfOk result (λ read. read ≡ bytes.now) }
        ensures zone { OnOk result (IsSome (zone_of bytes.now)) }
        ensures err { IfErr result (λ fault. IsKeepFault fault bytes.now) }
    {
        let zone = Zone::read(alloc, bytes.as_bytes())?;
        match bytes.copy() {
            Ok(bytes) => Ok(ReadZone { bytes, zone }),
            Err(_) => Err(ZoneFault::OutOfMemory),
        }
    }

    /// The bytes.
    pub fn bytes(&self) -> &Blob
        ensures { result.now ≡ self.now }
    {
        &self.bytes
    }

    /// The zone that they are.
    pub fn zone(&self) -> &Zone
        ensures { zone_of self.now ≡ Some result.now }
    {
        &self.zone
    }
}
