ghost use Rattle.std.specs.Prelude.{◌≡◌, ℕ, List, None, Some, IsOk, IfSome, IfNone, IfErr, OnOk, IsSome, if◌then◌else◌};
ghost use Rattle.std.specs.Option.{option_map, option_and_then};
ghost use Rattle.plain_words.specs.Lists.{same_text};
ghost use Rattle.zone_occ.specs.ZoneBytes.{zone_of};
ghost use Rattle.zone_shelf.specs.Keeping.{IsKeepFault};
ghost use Rattle.zone_shelf.specs.Places.{bytes_in, HasRoom};

use crate::place::Place;
use crate::places::{is_ready, keep_at, prepare};
use crate::read_zone::ReadZone;
use plain_words::{Blob, ZoneName};
use std::alloc::{AllocError, Global};
use std::collections::BTreeMap;
use std::marker::Model;
use zone_occ::{Zone, ZoneFault};

/// The bytes of time zones by name, each with its zone. Contracts see the bytes under each name, and
/// which bytes can be kept without memory.
#[derive(Drop)]
pub struct ZoneShelf {
    alloc: Global,
    places: BTreeMap<String, Place>,
}

impl Model for ZoneShelf {
    ghost use Rattle.zone_shelf.specs.Places.{Places};
    ghost use Rattle.zone_shelf.specs.Shown.{places_of};

    ghost Value = { Places };

    ghost view = { λ s. places_of s.places.entries };
}

impl ZoneShelf {
    /// No zone. Takes no memory.
    pub fn new(alloc: Global) -> ZoneShelf
        ensures { (name : List ℕ) → bytes_in result name ≡ None }
    {
        ZoneShelf {
            alloc,
            places: BTreeMap::new(alloc),
        }
    }

    /// The bytes of a zone, None exactly where none are kept under this name.
    pub fn bytes(&self, name: &ZoneName) -> Option<&Blob>
        ensures { option_map (λ bytes. bytes.now) result ≡ bytes_in self.now name.now }
    {
        Some(self.kept(name)?.bytes())
    }

    /// The zone that the bytes of this name are, None exactly where none are kept.
    pub fn zone(&self, name: &ZoneName) -> Option<&Zone>
        ensures some { IfSome result (λ zone. option_and_then zone_of (bytes_in self.now name.now) ≡ Some zone.now) }
        ensures none { IfNone result (bytes_in self.now name.now ≡ None) }
    {
        Some(self.kept(name)?.zone())
    }

    /// What is kept under this name.
    fn kept(&self, name: &ZoneName) -> Option<&ReadZone>
        ensures some { IfSome result (λ read. bytes_in self.now name.now ≡ Some read.now) }
        ensures none { IfNone result (bytes_in self.now name.now ≡ None) }
    {
        match self.places.get(name.as_str()) {
            Some(place) => place.kept(),
            None => None,
        }
    }

    /// Reads the zone that these bytes are, and makes room for it under this name. Ok says that they are
    /// a zone. `TooLong` comes only above 65,536 bytes, `NotAZone` only where no more of them are no zone,
    /// and want of memory only where they are a zone or a zone file. What is kept stays, and so does what
    /// there is room for.
    pub fn reserve(&mut self, name: &ZoneName, bytes: &Blob) -> Result<(), ZoneFault>
        ensures same { (q : List ℕ) → bytes_in self.new q ≡ bytes_in self.old q }
        ensures room { OnOk result (HasRoom self.new name.now bytes.now) }
        ensures zone { OnOk result (IsSome (zone_of bytes.now)) }
        ensures kept { (q other : List ℕ) → HasRoom self.old q other → HasRoom self.new q other }
        ensures ready { HasRoom self.old name.now bytes.now → IsOk result }
        ensures fault { IfErr result (λ fault. IsKeepFault fault bytes.now) }
    {
        if is_ready(&self.places, name, bytes) {
            return Ok(());
        }
        let read = ReadZone::read(self.alloc, bytes)?;
        match prepare(self.alloc, &mut self.places, name, read) {
            Ok(()) => Ok(()),
            Err(_) => Err(ZoneFault::OutOfMemory),
        }
    }

    /// Keeps these bytes under this name, in place of what it had. Takes no memory, and uses up the room
    /// that was made for them.
    pub fn add(&mut self, name: ZoneName, bytes: Blob)
        requires { HasRoom self.old name bytes }
        ensures { (q : List ℕ) → bytes_in self.new q ≡ (if same_text q name then Some bytes else bytes_in self.old q) }
    {
        keep_at(&mut self.places, &name, &bytes);
    }
}
