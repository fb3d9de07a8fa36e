ghost use Rattle.std.specs.Prelude.{◌≡◌, ◌≤◌, None, IfOk, IfSome, vec_len};
ghost use Rattle.zone_occ.specs.Files.{IsShort};

use crate::zone_files::{LONGEST_ANSWER, ZoneAnswer, ZoneCallFault, ZoneFiles};
use plain_words::{Blob, ZoneName};
use std::fs;
use std::io::{self, ErrorKind, Read};
use std::marker::Model;
use std::rt::Files;

/// The files of a folder, each a zone with its path below the folder as its name. A name that is not
/// found, that goes through a file or that is no regular file, as a folder, a pipe or a device, is
/// absent, and what is no regular file is not opened; every other refusal of the machine is a failed
/// call. It tells nothing of what the files hold.
#[derive(Drop)]
pub struct FolderZones<R> {
    rt: R,
    folder: String,
    faults: u64,
}

impl<R> Model for FolderZones<R> {
    ghost use Rattle.std.specs.Prelude.{ℕ};

    ghost Value = { ℕ };

    ghost view = { λ zones. zones.faults };
}

impl<R: Files + AllocGlobal> FolderZones<R> {
    /// The zones of this folder, which is not looked at before a name is read.
    pub fn new(rt: R, folder: String) -> FolderZones<R>
        ensures { result ≡ 0 }
    {
        FolderZones {
            rt,
            folder,
            faults: 0,
        }
    }

    /// How many calls failed.
    pub fn faults(&self) -> u64
        ensures { result ≡ self.now }
    {
        self.faults
    }
}

/// The first `LONGEST_ANSWER` bytes of a regular file, or all where there are fewer. Anything else is
/// not opened, since a pipe without a writer would wait for one.
fn read_front<R: Files + AllocGlobal>(rt: &R, path: &str) -> io::Result<Option<Vec<u8>>>
    ensures { IfOk result (λ found. IfSome found (λ bytes. vec_len bytes ≤ LONGEST_ANSWER)) }
{
    if !fs::metadata(rt, path)?.is_file() {
        return Ok(None);
    }
    let mut bytes = Vec::new(rt.alloc());
    fs::open(rt, path)?
        .take(LONGEST_ANSWER as u64)
        .read_to_end(&mut bytes)?;
    bytes.truncate(LONGEST_ANSWER);
    Ok(Some(bytes))
}

/// The answer that a refusal of the machine is.
fn refusal(kind: ErrorKind) -> Result<ZoneAnswer, ZoneCallFault>
    ensures { IfOk result IsShort }
{
    match kind {
        ErrorKind::NotFound | ErrorKind::NotADirectory | ErrorKind::IsADirectory => Ok(
            ZoneAnswer::Absent,
        ),
        ErrorKind::OutOfMemory => Err(ZoneCallFault::OutOfMemory),
        _ => Err(ZoneCallFault::Failed),
    }
}

/// Looks for a name below the folder.
fn look_up<R: Files + AllocGlobal>(
    rt: &R,
    folder: &str,
    name: &ZoneName,
) -> Result<ZoneAnswer, ZoneCallFault>
    ensures { IfOk result IsShort }
{
    let Ok(path) = format!(in rt.alloc(); "{folder}/{}", name.as_str()) else {
        return Err(ZoneCallFault::OutOfMemory);
    };
    match read_front(rt, path.as_str()) {
        Ok(Some(bytes)) => Ok(ZoneAnswer::Present(Blob::from_vec(bytes))),
        Ok(None) => Ok(ZoneAnswer::Absent),
        Err(error) => refusal(error.kind()),
    }
}

impl<R: Files + AllocGlobal> ZoneFiles for FolderZones<R> {
    ghost told = { λ _. None };

    ghost faults = { λ zones. zones };

    fn read(&mut self, name: &ZoneName) -> Result<ZoneAnswer, ZoneCallFault> {
        let answer = look_up(&self.rt, self.folder.as_str(), name);
        if let Err(ZoneCallFault::Failed) = &answer {
            self.faults = self.faults.saturating_add(1);
        }
        answer
    }
}
