use crate::samples::NEW_YORK;
use plain_words::{Blob, ZoneName};
use std::os::unix::fs::symlink;
use std::process::Abort;
use std::rt::Files;
use std::{env, fs, process};
use zone_occ::{FolderZones, MapZones, NamedZone, ZoneAnswer, ZoneCallFault, ZoneFiles};

/// How many bytes a file has that is too long.
const LONG: usize = 70_000;

/// What a source answers for a name.
#[derive(Clone, Copy)]
enum Wanted<'a> {
    Bytes(&'a [u8]),
    Nothing,
    Failure,
}

fn name_of<R: Abort + AllocGlobal>(rt: &R, name: &str) -> ZoneName {
    ZoneName::read(rt.alloc(), name.as_bytes()).expect(rt, "a name")
}

/// Asserts what a source answers for a name.
fn expect<R: Abort + AllocGlobal, Z: ZoneFiles>(rt: &R, zones: &mut Z, name: &str, wanted: Wanted) {
    let right = match (zones.read(&name_of(rt, name)), wanted) {
        (Ok(ZoneAnswer::Present(bytes)), Wanted::Bytes(all)) => bytes.as_bytes() == all,
        (Ok(ZoneAnswer::Absent), Wanted::Nothing) => true,
        (Err(ZoneCallFault::Failed), Wanted::Failure) => true,
        _ => false,
    };
    assert!(rt; right, "{name}");
}

fn named_zone<R: Abort + AllocGlobal>(rt: &R, name: &str, bytes: &[u8]) -> NamedZone {
    NamedZone {
        name: name_of(rt, name),
        bytes: Blob::from_vec(Vec::from_slice(rt.alloc(), bytes).expect(rt, "memory")),
    }
}

#[test]
fn zones_in_memory(rt: HostRuntime) {
    let long = [b'x'; LONG];
    let given: [(&str, &[u8]); 4] = [
        ("America/New_York", NEW_YORK),
        ("Long", &long),
        ("America/New_York", b"second"),
        ("Empty", b""),
    ];
    let mut named = Vec::new(rt.alloc());
    for (name, bytes) in given {
        named
            .push(named_zone(&rt, name, bytes))
            .expect(&rt, "memory");
    }
    let failing = Vec::from_array(rt.alloc(), [2, 5]).expect(&rt, "memory");
    let mut zones = MapZones::new(named, failing);
    let calls: [(&str, Wanted, u64); 6] = [
        ("America/New_York", Wanted::Bytes(NEW_YORK), 0),
        ("Empty", Wanted::Failure, 1),
        ("Empty", Wanted::Bytes(b""), 1),
        ("Nowhere", Wanted::Nothing, 1),
        ("Nowhere", Wanted::Failure, 2),
        ("Long", Wanted::Bytes(&long[..65_537]), 2),
    ];
    for (name, wanted, faults) in calls {
        expect(&rt, &mut zones, name, wanted);
        assert_eq!(rt; zones.faults(), faults, "{name}");
    }
}

fn write_file<R: Files + Abort + AllocGlobal>(rt: &R, folder: &str, name: &str, bytes: &[u8]) {
    let path = format!(in rt.alloc(); "{folder}/{name}").expect(rt, "memory");
    fs::write(rt, path.as_str(), bytes).expect(rt, "a file");
}

/// Makes the folder anew, with zones, a link to one, a folder that is none, a device and a file that
/// cannot be opened.
fn fill<R: Files + Abort + AllocGlobal>(rt: &R, folder: &str, long: &[u8]) {
    if fs::exists(rt, folder).expect(rt, "a folder") {
        fs::remove_dir_all(rt, folder).expect(rt, "a folder");
    }
    let inner = format!(in rt.alloc(); "{folder}/America/Empty").expect(rt, "memory");
    fs::create_dir_all(rt, inner.as_str()).expect(rt, "folders");
    write_file(rt, folder, "America/New_York", NEW_YORK);
    write_file(rt, folder, "Empty", b"");
    write_file(rt, folder, "Long", long);
    let link = format!(in rt.alloc(); "{folder}/Loop").expect(rt, "memory");
    symlink(rt, "Loop", link.as_str()).expect(rt, "a link");
    let device = format!(in rt.alloc(); "{folder}/Device").expect(rt, "memory");
    symlink(rt, "/dev/null", device.as_str()).expect(rt, "a link");
    let near = format!(in rt.alloc(); "{folder}/Alias").expect(rt, "memory");
    symlink(rt, "America/New_York", near.as_str()).expect(rt, "a link");
}

#[test]
fn zones_in_a_folder(rt: HostRuntime) {
    let long = [b'x'; LONG];
    let parent = env::temp_dir(&rt).expect(&rt, "a folder");
    let process = process::id(rt.process());
    let folder = format!(in rt.alloc(); "{}/zone_occ_{process}", parent.as_str()).expect(
        &rt, "memory",
    );
    fill(&rt, folder.as_str(), &long);
    let copy = format!(in rt.alloc(); "{folder}").expect(&rt, "memory");
    let mut zones = FolderZones::new(rt.clone().expect(&rt, "a handle"), copy);
    let calls: [(&str, Wanted, u64); 10] = [
        ("America/New_York", Wanted::Bytes(NEW_YORK), 0),
        ("Alias", Wanted::Bytes(NEW_YORK), 0),
        ("Device", Wanted::Nothing, 0),
        ("Empty", Wanted::Bytes(b""), 0),
        ("Nowhere", Wanted::Nothing, 0),
        ("Nowhere/New_York", Wanted::Nothing, 0),
        ("America", Wanted::Nothing, 0),
        ("America/New_York/Long", Wanted::Nothing, 0),
        ("Long", Wanted::Bytes(&long[..65_537]), 0),
        ("Loop", Wanted::Failure, 1),
    ];
    for (name, wanted, faults) in calls {
        expect(&rt, &mut zones, name, wanted);
        assert_eq!(rt; zones.faults(), faults, "{name}");
    }
    fs::remove_dir_all(&rt, folder.as_str()).expect(&rt, "a folder");
}
