//! The same by bare calls of the machine.
use crate::journals::FRAME;
use std::fs::{self, OpenOptions};
use std::io::Write;
use std::os::unix::fs::FileExt;

/// How many bytes are read in one call.
const BLOCK: usize = 16_384;

/// Two writes and two syncs for each record of a new file.
pub fn append(rt: &HostRuntime, path: &str, count: u64) -> anyhow::Result<u64> {
    let file = OpenOptions::new()
        .read(true)
        .write(true)
        .create_new(true)
        .open(rt, path)?;
    let mut end: u64 = 16;
    file.write_all_at(&[0; 17], 0)?;
    file.sync_all()?;
    for _ in 0..count {
        file.write_all_at(&FRAME, end.wrapping_add(1))?;
        file.sync_all()?;
        file.write_all_at(&[1], end)?;
        file.sync_all()?;
        end = end.wrapping_add(FRAME.len() as u64);
    }
    Ok(end)
}

/// Writes a journal of at least so many bytes, of records of this length, without a sync for each.
pub fn make(rt: &HostRuntime, path: &str, bytes: u64, length: u32) -> anyhow::Result<u64> {
    let mut record = Vec::new(rt.alloc());
    record.push(1)?;
    record.extend_from_slice(&length.to_be_bytes())?;
    record.resize(record.len().saturating_add(length as usize), 9)?;
    let mut file = fs::create(rt, path)?;
    file.write_all(b"SCHEDJNL\x01\x00\x00\x00\x00\x00\x00\x00")?;
    let mut end: u64 = 16;
    for _ in 0..u64::MAX {
        if bytes <= end {
            break;
        }
        file.write_all(record.as_slice())?;
        end = end.saturating_add(record.len() as u64);
    }
    file.write_all(&[0])?;
    Ok(end)
}

/// Reads a file to its end.
pub fn read(rt: &HostRuntime, path: &str) -> anyhow::Result<u64> {
    let file = fs::open(rt, path)?;
    let mut block = [0; BLOCK];
    let mut at: u64 = 0;
    for _ in 0..u64::MAX {
        let count = file.read_at(&mut block, at)?;
        if count == 0 {
            break;
        }
        at = at.wrapping_add(count as u64);
    }
    Ok(at)
}
