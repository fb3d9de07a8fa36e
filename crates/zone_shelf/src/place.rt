ghost use Rattle.std.specs.Prelude.{◌≡◌, ◌++◌, ◌∷◌, [], None, Some, IfSome, IfNone, IsSome, OnOk, OnErr, IsTrue, true, false};
ghost use Rattle.plain_words.specs.Lists.{same_text};
ghost use Rattle.zone_occ.specs.ZoneBytes.{zone_of};
ghost use Rattle.zone_shelf.specs.Places.{is_among, IsPlaceOf};

use crate::read_zone::ReadZone;
use plain_words::Blob;
use std::alloc::{AllocError, Global};
use std::marker::Model;

/// What stands under one name: the zone that is kept, if one is, and those that can be kept without
/// memory. Contracts see their bytes.
#[derive(Drop)]
pub struct Place {
    kept: Option<ReadZone>,
    ready: Vec<ReadZone>,
}

impl Model for Place {
    ghost use Rattle.zone_shelf.specs.Places.{Placed};

    ghost Value = { Placed };

    ghost view = { λ p. record { kept = p.kept; ready = p.ready.items } };
}

impl Place {
    /// A place with nothing in it. Takes no memory.
    pub fn new(alloc: Global) -> Place
        ensures kept { result.kept ≡ None }
        ensures ready { result.ready ≡ [] }
    {
        Place {
            kept: None,
            ready: Vec::new(alloc),
        }
    }

    /// The zone that is kept, if one is.
    pub fn kept(&self) -> Option<&ReadZone>
        ensures some { IfSome result (λ read. self.now.kept ≡ Some read.now) }
        ensures none { IfNone result (self.now.kept ≡ None) }
    {
        self.kept.as_ref()
    }

    /// Whether these bytes can be kept without memory.
    pub fn is_ready(&self, bytes: &Blob) -> bool
        ensures value { result ≡ is_among bytes.now self.now.ready }
        ensures zone { IsTrue result → IsSome (zone_of bytes.now) }
    {
        match place_in(&self.ready, bytes) {
            Some(at) => {
                let _zone = self.ready[at].zone();
                true
            }
            None => false,
        }
    }

    /// Lays a zone ready. Where memory is wanted nothing is changed.
    pub fn prepare(&mut self, read: ReadZone) -> Result<(), AllocError>
        ensures kept { self.new.kept ≡ self.old.kept }
        ensures ok { OnOk result (self.new.ready ≡ self.old.ready ++ read ∷ []) }
        ensures err { OnErr result (self.new.ready ≡ self.old.ready) }
    {
        self.ready.push(read)?;
        Ok(())
    }

    /// Keeps a zone that lies ready, without memory.
    pub fn keep(&mut self, bytes: &Blob)
        requires { is_among bytes.now self.old.ready ≡ true }
        ensures { self.new.kept ≡ Some bytes.now }
    {
        match place_in(&self.ready, bytes) {
            Some(at) => self.kept = Some(self.ready.swap_remove(at)),
            None => unreachable!(),
        }
    }
}

/// The place of a zone with these bytes among some.
fn place_in(zones: &[ReadZone], bytes: &Blob) -> Option<usize>
    ensures some { IfSome result (λ at. IsPlaceOf zones.now bytes.now at) }
    ensures there { IfSome result (λ _. is_among bytes.now zones.now ≡ true) }
    ensures none { IfNone result (is_among bytes.now zones.now ≡ false) }
{
    for (at, zone) in zones.iter().enumerate() {
        if has_bytes(zone, bytes) {
            return Some(at);
        }
    }
    None
}

fn has_bytes(zone: &ReadZone, bytes: &Blob) -> bool
    ensures { result ≡ same_text bytes.now zone.now }
{
    bytes.as_bytes() == zone.bytes().as_bytes()
}
