//! What a file in memory went through, gone through again to make an image.
ghost use Rattle.std.specs.Prelude.{◌≡◌, ◌-◌, nat_lt, reverse, IfOk, OnOk, OnErr};
ghost use Rattle.disk_port.specs.Writes.{written};
ghost use Rattle.disk_port.specs.Past.{seen_of, unsynced, whole_or, image_of};

use crate::contents::put;
use crate::event::Event;
use std::alloc::{AllocError, Global};

/// What a read gives after some of the events, the image that is made of them, and how many writes are whole in it yet
/// until the next sync.
#[derive(Drop)]
struct Replay {
    seen: Vec<u8>,
    image: Vec<u8>,
    left: u64,
}

/// Writes the bytes, or as many of one value.
fn put_or_fill(
    alloc: Global,
    image: &mut Vec<u8>,
    at: u64,
    bytes: &[u8],
    is_whole: bool,
    fill: u8,
) -> Result<(), AllocError>
    ensures { OnOk result (image.new.items ≡ written image.old.items at (whole_or is_whole fill bytes.now)) }
{
    if is_whole {
        return put(image, at, bytes);
    }
    let mut filled = Vec::new(alloc);
    filled.resize(bytes.len(), fill)?;
    put(image, at, filled.as_slice())
}

impl Replay {
    fn write(&mut self, alloc: Global, at: u64, bytes: &[u8], fill: u8) -> Result<(), AllocError>
        ensures seen { OnOk result (self.new.seen.items ≡ written self.old.seen.items at bytes.now) }
        ensures image { OnOk result (self.new.image.items
            ≡ written self.old.image.items at (whole_or (nat_lt 0 self.old.left) fill bytes.now)) }
        ensures left { OnOk result (self.new.left ≡ self.old.left - 1) }
    {
        put(&mut self.seen, at, bytes)?;
        put_or_fill(alloc, &mut self.image, at, bytes, 0 < self.left, fill)?;
        self.left = self.left.saturating_sub(1);
        Ok(())
    }

    fn sync(&mut self, alloc: Global, keep: u64) -> Result<(), AllocError>
        ensures seen { OnOk result (self.new.seen.items ≡ self.old.seen.items) }
        ensures image { OnOk result (self.new.image.items ≡ self.old.seen.items) }
        ensures left { OnOk result (self.new.left ≡ keep) }
    {
        self.image = Vec::from_slice(alloc, self.seen.as_slice())?;
        self.left = keep;
        Ok(())
    }
}

/// The image of a file that held these bytes at first and went through these events, the oldest first: the first `keep`
/// writes since the last sync are whole in it, and every byte in the ranges of the later ones is `fill`.
pub(crate) fn image_after(
    alloc: Global,
    first: &[u8],
    events: &[Event],
    keep: u64,
    fill: u8,
) -> Result<Vec<u8>, AllocError>
    ensures { IfOk result (λ file. file.items ≡ image_of keep fill first.now (reverse events.now)) }
{
    let mut replay = Replay {
        seen: Vec::from_slice(alloc, first)?,
        image: Vec::from_slice(alloc, first)?,
        left: keep,
    };
    for event in events {
        match event {
            Event::Written { at, bytes } => replay.write(alloc, *at, bytes.as_bytes(), fill)?,
            Event::Synced => replay.sync(alloc, keep)?,
        }
    }
    Ok(replay.image)
}
