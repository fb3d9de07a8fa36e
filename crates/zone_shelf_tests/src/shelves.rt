ghost use Rattle.cron_search.specs.CivilTime.{IsCivilSecond};

use expressions::Civil;
use plain_words::{Blob, ZoneName};
use std::process::Abort;
use zone_occ::{ZoneFault, conv};
use zone_shelf::ZoneShelf;

/// The rule of New York.
const NEW_YORK: &[u8] = b"EST5EDT,M3.2.0,M11.1.0";

/// The rule of Tokyo.
const TOKYO: &[u8] = b"JST-9";

/// Whether these bytes stand under a name, and when the clock of its zone shows noon of 1970-01-02.
type Shown = (bool, Option<i64>);

/// Nothing is kept under a name.
const NOTHING: Shown = (false, None);

fn noon() -> Civil
    ensures { IsCivilSecond result }
{
    Civil {
        year: 1970,
        month: 1,
        day: 2,
        hour: 12,
        minute: 0,
        second: 0,
    }
}

fn name_of<R: Abort + AllocGlobal>(rt: &R, name: &str) -> ZoneName {
    ZoneName::read(rt.alloc(), name.as_bytes()).expect(rt, "a name")
}

fn blob_of<R: Abort + AllocGlobal>(rt: &R, bytes: &[u8]) -> Blob {
    Blob::from_vec(Vec::from_slice(rt.alloc(), bytes).expect(rt, "memory"))
}

/// Keeps bytes under a name where they are a zone.
fn keep<R: Abort + AllocGlobal>(
    rt: &R,
    shelf: &mut ZoneShelf,
    name: &str,
    bytes: &[u8],
) -> Result<(), ZoneFault> {
    let name = name_of(rt, name);
    let bytes = blob_of(rt, bytes);
    shelf.reserve(&name, &bytes)?;
    shelf.add(name, bytes);
    Ok(())
}

/// What is shown under a name.
fn shown<R: Abort + AllocGlobal>(rt: &R, shelf: &ZoneShelf, name: &str, bytes: &[u8]) -> Shown {
    let name = name_of(rt, name);
    (has_bytes(shelf, &name, bytes), noon_in(shelf, &name))
}

fn has_bytes(shelf: &ZoneShelf, name: &ZoneName, bytes: &[u8]) -> bool {
    match shelf.bytes(name) {
        Some(kept) => kept.as_bytes() == bytes,
        None => false,
    }
}

fn noon_in(shelf: &ZoneShelf, name: &ZoneName) -> Option<i64> {
    conv(shelf.zone(name)?, noon())
}

#[test]
fn two_names_have_their_own_zones(rt: HostRuntime) {
    let mut shelf = ZoneShelf::new(rt.alloc());
    let tokyo = keep(&rt, &mut shelf, "Asia/Tokyo", TOKYO);
    let new_york = keep(&rt, &mut shelf, "America/New_York", NEW_YORK);
    let seen = (
        shown(&rt, &shelf, "America/New_York", NEW_YORK),
        shown(&rt, &shelf, "Asia/Tokyo", TOKYO),
        shown(&rt, &shelf, "Europe/Paris", TOKYO),
    );
    assert_eq!(rt; (new_york, tokyo), (Ok(()), Ok(())));
    assert_eq!(rt;
        seen,
        ((true, Some(147_600)), (true, Some(97_200)), NOTHING)
    );
}

#[test]
fn new_bytes_take_the_place_of_old_ones(rt: HostRuntime) {
    let mut shelf = ZoneShelf::new(rt.alloc());
    let first = keep(&rt, &mut shelf, "America/New_York", TOKYO);
    let second = keep(&rt, &mut shelf, "America/New_York", NEW_YORK);
    let seen = (
        shown(&rt, &shelf, "America/New_York", NEW_YORK),
        shown(&rt, &shelf, "America/New_York", TOKYO),
    );
    assert_eq!(rt; (first, second), (Ok(()), Ok(())));
    assert_eq!(rt; seen, ((true, Some(147_600)), (false, Some(147_600))));
}

#[test]
fn bytes_that_are_no_zone_are_not_kept(rt: HostRuntime) {
    let mut shelf = ZoneShelf::new(rt.alloc());
    let long = Vec::from_elem(rt.alloc(), b' ', 65_537).expect(&rt, "memory");
    let refused = (
        keep(&rt, &mut shelf, "America/New_York", b"EST5EDT"),
        keep(&rt, &mut shelf, "America/New_York", long.as_slice()),
    );
    let seen = shown(&rt, &shelf, "America/New_York", b"EST5EDT");
    assert_eq!(rt;
        refused,
        (
            Err(ZoneFault::NotAZone),
            Err(ZoneFault::TooLong { len: 65_537 })
        )
    );
    assert_eq!(rt; seen, NOTHING);
}

/// Makes room for two zones of one name, and keeps the first.
fn keep_first_of_two<R: Abort + AllocGlobal>(
    rt: &R,
    shelf: &mut ZoneShelf,
    first: &[u8],
    second: &[u8],
) -> Result<(), ZoneFault> {
    let name = name_of(rt, "America/New_York");
    let kept = blob_of(rt, first);
    shelf.reserve(&name, &kept)?;
    shelf.reserve(&name, &blob_of(rt, second))?;
    shelf.add(name, kept);
    Ok(())
}

#[test]
fn room_for_one_zone_stays_where_room_for_another_is_made(rt: HostRuntime) {
    let mut shelf = ZoneShelf::new(rt.alloc());
    let kept = keep_first_of_two(&rt, &mut shelf, NEW_YORK, TOKYO);
    let seen = shown(&rt, &shelf, "America/New_York", NEW_YORK);
    assert_eq!(rt; kept, Ok(()));
    assert_eq!(rt; seen, (true, Some(147_600)));
}
