use plain_words::Blob;

/// What a file in memory goes through.
#[derive(Debug, Drop)]
pub enum Event {
    /// These bytes were written at this offset.
    Written { at: u64, bytes: Blob },
    /// What a read gives came to rest: a crash leaves it.
    Synced,
}
