ghost use Rattle.std.specs.Prelude.{◌≡◌, Some, None, IfOk, IfErr};
ghost use Rattle.jiff_tz.specs.PosixReader.{read_whole};
ghost use Rattle.jiff_tz.specs.TzifReader.{read_tzif};
ghost use Rattle.zone_occ.specs.ZoneText.{utc};
ghost use Rattle.zone_occ.specs.ZoneBytes as bytes_words;
ghost use Rattle.zone_occ.specs.ZoneBytes.{zone_of, read_zone, of_table, of_rule, IsRefusal, IsFaultOf};
ghost use Rattle.zone_occ.specs.FileFault as faults;
ghost use Rattle.zone_occ.specs.FileFault.{IsFileFault};
ghost use Rattle.zone_occ.specs.Kind.{kind_text};
ghost use Rattle.zone_occ.specs.Offsets as offsets;
ghost use Rattle.zone_occ.specs.Conversion.{IsNear, IsNearBy};

use crate::offset_bounds::OffsetBounds;
use jiff_core::Error;
use jiff_tz::{Tzif, posix};
use plain_words::LONGEST_ZONE;
use std::alloc::Global;
use std::marker::Model;
use std::{error, fmt};

/// The rules by which the clocks of a place run. Contracts see what its bytes say.
#[derive(Debug, Drop)]
pub struct Zone {
    pub(crate) kind: Kind,
    /// The least and the greatest offset of this kind.
    pub(crate) bounds: OffsetBounds,
    ghost bounds_are: { bounds ≡ offsets.bounds (kind_text kind) },
}

/// Where the offsets of a zone come from.
#[derive(Debug, Drop)]
pub(crate) enum Kind {
    /// The built-in zone, which is never ahead of UTC or behind it.
    Utc,
    /// A POSIX rule.
    Rule(posix::TimeZone),
    /// The table and the rule of a zone file.
    Table(Tzif),
}

impl Model for Zone {
    ghost use Rattle.zone_occ.specs.ZoneText.{ZoneText};

    ghost Value = { ZoneText };

    ghost use Rattle.zone_occ.specs.Kind.{kind_text};

    ghost view = { λ zone. kind_text zone.kind };
}

/// Why bytes could not be read as a zone.
#[derive(Debug, Clone, Copy, PartialEq, Eq)]
pub enum ZoneFault {
    /// There are more than 65,536 bytes, `len` of them.
    TooLong { len: usize },
    /// The bytes are neither a zone file nor a rule.
    NotAZone,
    /// Memory was wanted for a zone file.
    OutOfMemory,
}

impl fmt::Display for ZoneFault {
    fn fmt<W: fmt::Write>(&self, f: &mut fmt::Formatter<W>) -> fmt::Result {
        match self {
            ZoneFault::TooLong { len } => write!(f, "{len} bytes are too many for a zone"),
            ZoneFault::NotAZone => write!(f, "neither a zone file nor a rule"),
            ZoneFault::OutOfMemory => write!(f, "out of memory"),
        }
    }
}

impl error::Error for ZoneFault {}

/// Whether the bytes are those of a zone file, which begins with `TZif`.
fn is_file(bytes: &[u8]) -> bool
    ensures { result ≡ bytes_words.is_file bytes.now }
{
    bytes.starts_with(b"TZif")
}

/// The fault that an error of the library is.
fn fault_of(error: Error) -> ZoneFault
    ensures { result ≡ faults.fault_of error }
{
    match error {
        Error::OutOfMemory => ZoneFault::OutOfMemory,
        _ => ZoneFault::NotAZone,
    }
}

fn read_file(alloc: Global, bytes: &[u8]) -> Result<Kind, ZoneFault>
    ensures ok { IfOk result (λ kind. of_table (read_tzif bytes.now) ≡ Some (kind_text kind)) }
    ensures err { IfErr result (λ fault. IsFileFault fault (read_tzif bytes.now)) }
{
    match Tzif::parse(alloc, None, bytes) {
        Ok(table) => Ok(Kind::Table(table)),
        Err(error) => Err(fault_of(error)),
    }
}

fn read_rule(bytes: &[u8]) -> Result<Kind, ZoneFault>
    ensures ok { IfOk result (λ kind. of_rule (read_whole bytes.now) ≡ Some (kind_text kind)) }
    ensures err { IfErr result (λ fault. (fault ≡ ZoneFault.NotAZone) × (of_rule (read_whole bytes.now) ≡ None)) }
{
    match posix::TimeZone::parse(bytes) {
        Ok(rule) => Ok(Kind::Rule(rule)),
        Err(_) => Err(ZoneFault::NotAZone),
    }
}

fn read_kind(alloc: Global, bytes: &[u8]) -> Result<Kind, ZoneFault>
    ensures ok { IfOk result (λ kind. read_zone bytes.now ≡ Some (kind_text kind)) }
    ensures err { IfErr result (λ fault. IsRefusal fault bytes.now) }
{
    if is_file(bytes) {
        read_file(alloc, bytes)
    } else {
        read_rule(bytes)
    }
}

impl Zone {
    fn of_kind(kind: Kind) -> Zone
        ensures { result ≡ kind_text kind }
    {
        let bounds = OffsetBounds::of_kind(&kind);
        Zone { kind, bounds }
    }

    /// Reads a zone from a zone file (TZif, RFC 9636), which begins with `TZif`, or from a POSIX rule
    /// such as `EST5EDT,M3.2.0,M11.1.0`. `TooLong` comes exactly above 65,536 bytes, `NotAZone` where
    /// the bytes are neither, and `OutOfMemory` only where they read as a zone file. A file whose rule
    /// disagrees with the last row of its table is no zone.
    pub fn read(alloc: Global, bytes: &[u8]) -> Result<Zone, ZoneFault>
        ensures ok { IfOk result (λ zone. zone_of bytes.now ≡ Some zone) }
        ensures err { IfErr result (λ fault. IsFaultOf fault bytes.now) }
    {
        if bytes.len() > LONGEST_ZONE {
            return Err(ZoneFault::TooLong { len: bytes.len() });
        }
        match read_kind(alloc, bytes) {
            Ok(kind) => Ok(Zone::of_kind(kind)),
            Err(fault) => Err(fault),
        }
    }

    /// Costs nothing, and says that each instant of the zone lies between its least and its greatest
    /// offset from its civil second read in UTC.
    pub fn is_near(&self)
        ensures { IsNear self.now }
    {
        let _kind = &self.kind;
    }

    /// The least and the greatest offset of the zone.
    pub(crate) fn bounds(&self) -> OffsetBounds
        ensures value { result ≡ offsets.bounds self.now }
        ensures near { IsNearBy result self.now }
    {
        self.bounds
    }

    /// UTC, which is built in and has no bytes.
    pub fn utc() -> Zone
        ensures { result ≡ utc }
    {
        Zone::of_kind(Kind::Utc)
    }
}
