/// Why a book was not opened from a file.
#[derive(Debug, Clone, Copy, PartialEq, Eq)]
pub enum LoadFault {
    /// A call of the disk failed.
    DiskFault,
    /// The first byte that is not that of a journal's header, or is missing, is at this offset.
    NotAJournal { at: u64 },
    /// The first damage is at the gate at this offset: there is no whole record, or one that is read as no step, or whose step
    /// may not follow those before it.
    Damaged { at: u64 },
    /// Memory was wanted.
    OutOfMemory,
}

/// Why the step of a record was not taken.
#[derive(Clone, Copy)]
pub(crate) enum RecordFault {
    /// It is that of no valid step that may follow.
    Broken,
    /// Memory was wanted.
    OutOfMemory,
}
