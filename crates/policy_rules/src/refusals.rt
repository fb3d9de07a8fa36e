/// Another worker holds the shard.
#[derive(Debug, Clone, Copy, PartialEq, Eq)]
pub struct Held {
    /// The one that took it.
    pub worker: u32,
    /// Until when, in seconds since 1970 UTC: from that moment on anyone may take it.
    pub until: u64,
}

/// The worker does not have the shard with its last epoch.
#[derive(Debug, Clone, Copy, PartialEq, Eq)]
pub struct Stale {
    /// The shard's epoch.
    pub epoch: u64,
}
