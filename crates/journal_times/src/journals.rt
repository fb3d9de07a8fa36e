//! The calls of `journal_file`.
ghost use Rattle.std.specs.Prelude.{◌≡◌, None, IfOk};

use anyhow::bail;
use disk_port::{Disk, FileDisk};
use journal_file::{Journal, init};
use std::alloc::Global;

/// The most bytes of a journal here.
const LIMIT: u64 = 1 << 40;

/// The frame of a payload of 24 bytes, as long as those of most steps.
pub const FRAME: [u8; 29] = [
    0, 0, 0, 24, 7, 1, 2, 3, 4, 5, 6, 7, 8, 9, 10, 11, 12, 13, 14, 15, 16, 17, 18, 19, 20, 21, 22,
    23, 0,
];

fn disk_at(rt: &HostRuntime, path: &str) -> anyhow::Result<FileDisk<HostRuntime>> {
    let path = format!(in rt.alloc(); "{path}")?;
    Ok(FileDisk::making(rt.clone()?, path))
}

/// Reads a journal to its end: the journal, and how many bytes its payloads have.
fn read_all<D: Disk>(alloc: Global, disk: &mut D) -> anyhow::Result<(Journal, u64)>
    ensures { IfOk result (λ read. read.0.doubt ≡ None) }
{
    let Ok(mut opening) = Journal::open(disk, LIMIT) else {
        bail!("no journal");
    };
    let mut bytes: u64 = 0;
    let mut into = Vec::new(alloc);
    for _ in 0..u64::MAX {
        match opening.next(disk, &mut into) {
            Ok(true) => bytes = bytes.wrapping_add(into.len() as u64),
            Ok(false) => break,
            Err(_) => bail!("no record"),
        }
    }
    if !opening.is_closed() {
        bail!("no end");
    }
    Ok((opening.finish(), bytes))
}

/// Appends so many records to a new journal.
pub fn append(rt: &HostRuntime, path: &str, count: u64) -> anyhow::Result<u64> {
    let mut disk = disk_at(rt, path)?;
    if init(&mut disk).is_err() {
        bail!("the file is not empty, or not to be written");
    }
    let (mut journal, _) = read_all(rt.alloc(), &mut disk)?;
    for _ in 0..count {
        if journal.is_torn() || journal.append(&mut disk, &FRAME, 0).is_err() {
            bail!("no append");
        }
    }
    Ok(journal.end())
}

/// Reads a journal, record by record.
pub fn read(rt: &HostRuntime, path: &str) -> anyhow::Result<u64> {
    let mut disk = disk_at(rt, path)?;
    let (_, bytes) = read_all(rt.alloc(), &mut disk)?;
    Ok(bytes)
}
