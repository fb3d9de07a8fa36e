ghost use Rattle.std.specs.Prelude.{◌≡◌, ℕ, List, None, Some, IsSome, IsTrue, OnOk, true};
ghost use Rattle.std.specs.BTreeMap.{get_by_text};
ghost use Rattle.zone_occ.specs.ZoneBytes.{zone_of};
ghost use Rattle.zone_shelf.specs.Places.{Placed, is_ready_on};
ghost use Rattle.zone_shelf.specs.Shown.{Changes, Prepared};

use crate::place::Place;
use crate::read_zone::ReadZone;
use plain_words::{Blob, ZoneName};
use std::alloc::{AllocError, Global};
use std::collections::BTreeMap;

/// Whether these bytes can be kept under a name without memory.
pub fn is_ready(places: &BTreeMap<String, Place>, name: &ZoneName, bytes: &Blob) -> bool
    ensures value { result ≡ is_ready_on bytes.now (get_by_text places.now name.now) }
    ensures zone { IsTrue result → IsSome (zone_of bytes.now) }
{
    match places.get(name.as_str()) {
        Some(place) => place.is_ready(bytes),
        None => false,
    }
}

/// Lays a zone ready under a name, and makes a place where it has none.
pub fn prepare(
    alloc: Global,
    places: &mut BTreeMap<String, Place>,
    name: &ZoneName,
    read: ReadZone,
) -> Result<(), AllocError>
    ensures prepared { Prepared places.old places.new }
    ensures ready { OnOk result (is_ready_on read (get_by_text places.new name.now) ≡ true) }
{
    if places.contains_key(name.as_str()) {
        return prepare_at(places, name, read);
    }
    begin(alloc, places, name)?;
    prepare_at(places, name, read)
}

/// Makes an empty place for a name that has none.
fn begin(
    alloc: Global,
    places: &mut BTreeMap<String, Place>,
    name: &ZoneName,
) -> Result<(), AllocError>
    requires { get_by_text places.old name.now ≡ None }
    ensures prepared { Prepared places.old places.new }
    ensures there { OnOk result (IsSome (get_by_text places.new name.now)) }
{
    let text = String::from_str(alloc, name.as_str())?;
    places.insert(text, Place::new(alloc))?;
    Ok(())
}

/// Lays a zone ready in the place of a name.
fn prepare_at(
    places: &mut BTreeMap<String, Place>,
    name: &ZoneName,
    read: ReadZone,
) -> Result<(), AllocError>
    requires { IsSome (get_by_text places.old name.now) }
    ensures prepared { Prepared places.old places.new }
    ensures ready { OnOk result (is_ready_on read (get_by_text places.new name.now) ≡ true) }
{
    match places.get_mut(name.as_str()) {
        Some(place) => place.prepare(read),
        None => unreachable!(),
    }
}

/// Keeps bytes that lie ready under a name.
pub fn keep_at(places: &mut BTreeMap<String, Place>, name: &ZoneName, bytes: &Blob)
    requires { is_ready_on bytes.now (get_by_text places.old name.now) ≡ true }
    ensures { (after : Placed) × (after.kept ≡ Some bytes.now) × Changes places.old places.new name.now after }
{
    match places.get_mut(name.as_str()) {
        Some(place) => place.keep(bytes),
        None => unreachable!(),
    }
}
