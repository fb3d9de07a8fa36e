ghost use Rattle.std.specs.Prelude.{◌+◌, ◌^◌, ◌<◌, ◌≤◌, length, IfOk};

use std::fs::{self, File, OpenOptions};
use std::io::{self, ErrorKind};
use std::os::unix::fs::FileExt;
use std::path::Path;
use std::rt::Files;

/// What to do about a file that is absent.
#[derive(Clone, Copy)]
pub(crate) enum Absent {
    Fail,
    Make,
}

/// A file of the machine that is opened at the first call.
#[derive(Drop)]
pub(crate) struct LateFile<R> {
    rt: R,
    path: String,
    absent: Absent,
    file: Option<File>,
    folder_is_synced: bool,
}

impl<R: Files<File = File>> LateFile<R> {
    pub(crate) fn new(rt: R, path: String, absent: Absent) -> LateFile<R> {
        LateFile {
            rt,
            path,
            absent,
            file: None,
            folder_is_synced: matches!(absent, Absent::Fail),
        }
    }

    fn opened(&mut self) -> io::Result<&File> {
        if self.file.is_none() {
            self.file = Some(open(&self.rt, self.path.as_str(), self.absent)?);
        }
        match &self.file {
            Some(file) => Ok(file),
            None => Err(ErrorKind::NotFound.into()),
        }
    }

    /// How many bytes it has.
    pub(crate) fn len(&mut self) -> io::Result<u64> {
        Ok(self.opened()?.metadata()?.len())
    }

    /// Reads from an offset on, until `into` is full or the file ends, and returns how many bytes.
    pub(crate) fn read(&mut self, at: u64, into: &mut [u8]) -> io::Result<usize>
        ensures fits { IfOk result (λ n. n ≤ length into.old) }
        ensures within { IfOk result (λ n. at + n < 2 ^ 64) }
    {
        read_whole(self.opened()?, at, into)
    }

    /// Writes all the bytes at an offset.
    pub(crate) fn write(&mut self, at: u64, bytes: &[u8]) -> io::Result<()> {
        self.opened()?.write_all_at(bytes, at)
    }

    /// Brings what was written to rest on the device, and with the first call the name of a file that may have been made.
    pub(crate) fn sync(&mut self) -> io::Result<()> {
        self.opened()?.sync_all()?;
        if !self.folder_is_synced {
            sync_folder(&self.rt, self.path.as_str())?;
            self.folder_is_synced = true;
        }
        Ok(())
    }
}

fn open<R: Files<File = File>>(rt: &R, path: &str, absent: Absent) -> io::Result<File> {
    let makes = matches!(absent, Absent::Make);
    OpenOptions::new()
        .read(true)
        .write(true)
        .create(makes)
        .open(rt, path)
}

/// Brings the names in the folder of this path to rest.
fn sync_folder<R: Files<File = File>>(rt: &R, path: &str) -> io::Result<()> {
    let folder = match Path::new(path).parent() {
        Some(parent) if !parent.as_str().is_empty() => parent.as_str(),
        _ => ".",
    };
    fs::open(rt, folder)?.sync_all()
}

fn read_whole(file: &File, at: u64, into: &mut [u8]) -> io::Result<usize>
    ensures fits { IfOk result (λ n. n ≤ length into.old) }
    ensures within { IfOk result (λ n. at + n < 2 ^ 64) }
{
    let mut count: usize = 0;
    for _turn in 0..u64::MAX {
        let Some(place) = at.checked_add(count as u64) else {
            break;
        };
        if count == into.len() {
            return Ok(count);
        }
        match file.read_at(&mut into[count..], place) {
            Ok(0) => return Ok(count),
            Ok(more) => count += more,
            Err(error) if error.kind() == ErrorKind::Interrupted => {}
            Err(error) => return Err(error),
        }
    }
    Err(ErrorKind::InvalidInput.into())
}
