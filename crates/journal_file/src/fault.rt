ghost use Rattle.std.specs.Prelude.{◌≡◌};

use disk_port::DiskFailed;

/// A call of the disk failed.
#[derive(Clone, Copy, Debug, PartialEq, Eq)]
pub struct DiskFault;

/// Why a journal was not begun.
#[derive(Clone, Copy, Debug, PartialEq, Eq)]
pub enum InitFault {
    /// The file has bytes, so many. Nothing was written.
    NotEmpty { len: u64 },
    /// A call of the disk failed.
    DiskFault,
}

/// Why a journal was not opened.
#[derive(Clone, Copy, Debug, PartialEq, Eq)]
pub enum OpenFault {
    /// A call of the disk failed.
    DiskFault,
    /// The first byte that is not that of a journal's header, or is missing, is at this offset.
    NotAJournal { at: u64 },
}

/// Why there is no next record.
#[derive(Clone, Copy, Debug, PartialEq, Eq)]
pub enum NextFault {
    /// A call of the disk failed.
    DiskFault,
    /// The file is damaged at the gate at this offset.
    BadRecord { at: u64 },
    /// Memory was wanted.
    OutOfMemory,
}

/// Why a record was not appended.
#[derive(Clone, Copy, Debug, PartialEq, Eq)]
pub enum AppendFault {
    /// The journal ends at `end`, and `need` more bytes are more than it may have. Nothing was written.
    Full { end: u64, need: u64 },
    /// A call of the disk failed; whether the record is in is in doubt.
    DiskFault,
}

impl From<DiskFailed> for DiskFault {
    fn from(_: DiskFailed) -> DiskFault {
        DiskFault
    }
}

impl From<DiskFailed> for InitFault {
    ghost use Rattle.journal_file.specs.declared.fault.InitFault.TheVariants as faults;

    ghost from_gives = { λ _ fault. fault ≡ faults.DiskFault };

    fn from(_: DiskFailed) -> InitFault {
        InitFault::DiskFault
    }
}

impl From<DiskFailed> for OpenFault {
    ghost use Rattle.journal_file.specs.declared.fault.OpenFault.TheVariants as faults;

    ghost from_gives = { λ _ fault. fault ≡ faults.DiskFault };

    fn from(_: DiskFailed) -> OpenFault {
        OpenFault::DiskFault
    }
}

impl From<DiskFailed> for NextFault {
    ghost use Rattle.journal_file.specs.declared.fault.NextFault.TheVariants as faults;

    ghost from_gives = { λ _ fault. fault ≡ faults.DiskFault };

    fn from(_: DiskFailed) -> NextFault {
        NextFault::DiskFault
    }
}

impl From<DiskFailed> for AppendFault {
    ghost use Rattle.journal_file.specs.declared.fault.AppendFault.TheVariants as faults;

    ghost from_gives = { λ _ fault. fault ≡ faults.DiskFault };

    fn from(_: DiskFailed) -> AppendFault {
        AppendFault::DiskFault
    }
}
