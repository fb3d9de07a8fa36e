/// A call of the disk failed.
#[derive(Debug, Clone, Copy, PartialEq, Eq)]
pub struct DiskFault;

/// Why a step is not kept.
#[derive(Debug, Clone, Copy, PartialEq, Eq)]
pub enum KeepFault {
    /// The file has no room for the step: it ends at `end`, and the step needs `need` bytes more.
    Full { end: u64, need: u64 },
    /// A call of the disk failed. Perhaps the step is on it.
    DiskFault,
}
