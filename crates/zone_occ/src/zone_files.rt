//! Where the bytes of zones come from.
ghost use Rattle.std.specs.Prelude.{◌≡◌, ℕ, ◌≤◌, Option, List, IfOk};
ghost use Rattle.zone_occ.specs.declared.zone_files.NamedZone.{NamedZone};
ghost use Rattle.zone_occ.specs.Files.{IsTold, IsShort, IsCounted};

use plain_words::{Blob, LONGEST_ZONE, TryCopy, ZoneName};
use std::alloc::AllocError;
use std::error::Error;
use std::fmt;

/// The most bytes of an answer: one more than a zone may have, so that too many show.
pub const LONGEST_ANSWER: usize = LONGEST_ZONE + 1;

/// The bytes of a zone, with its name.
#[derive(Debug, Drop)]
pub struct NamedZone {
    pub name: ZoneName,
    pub bytes: Blob,
}

/// What there is of a name.
#[derive(Debug, Drop)]
pub enum ZoneAnswer {
    /// These bytes, which need not be a zone; of more than `LONGEST_ANSWER` the first so many.
    Present(Blob),
    /// Nothing.
    Absent,
}

/// Why a call for a name has no answer.
#[derive(Debug, Clone, Copy, PartialEq, Eq)]
pub enum ZoneCallFault {
    /// The source failed, and counted it.
    Failed,
    /// Memory was wanted.
    OutOfMemory,
}

impl fmt::Display for ZoneCallFault {
    fn fmt<W: fmt::Write>(&self, f: &mut fmt::Formatter<W>) -> fmt::Result {
        match self {
            ZoneCallFault::Failed => write!(f, "the source of zones failed"),
            ZoneCallFault::OutOfMemory => write!(f, "out of memory"),
        }
    }
}

impl Error for ZoneCallFault {}

impl TryCopy for NamedZone {
    fn copy(&self) -> Result<NamedZone, AllocError> {
        Ok(NamedZone {
            name: self.name.copy()?,
            bytes: self.bytes.copy()?,
        })
    }
}

impl TryCopy for ZoneAnswer {
    fn copy(&self) -> Result<ZoneAnswer, AllocError> {
        match self {
            ZoneAnswer::Present(bytes) => Ok(ZoneAnswer::Present(bytes.copy()?)),
            ZoneAnswer::Absent => Ok(ZoneAnswer::Absent),
        }
    }
}

/// A source of the bytes of zones, by name.
pub trait ZoneFiles {
    /// The zones that there are, of which the first of a name counts; `None` of a source that does
    /// not tell.
    ghost told: { Self → Option (List NamedZone) };
    /// How many calls failed. A count that has come to the greatest u64 stays there.
    ghost faults: { Self → ℕ };

    /// The bytes of this name, at most the first `LONGEST_ANSWER`.
    fn read(&mut self, name: &ZoneName) -> Result<ZoneAnswer, ZoneCallFault>
        ensures answer { IfOk result (IsTold (told self.old) name.now) }
        ensures short { IfOk result IsShort }
        ensures told { told self.new ≡ told self.old }
        ensures later { faults self.old ≤ faults self.new }
        ensures count { IsCounted result (faults self.old) (faults self.new) };
}
