//! The response to a request, by how the request was answered.
ghost use Rattle.std.specs.Prelude.{◌≡◌};
ghost use Rattle.sched_top.specs.Turns.{bytes_of};

use http_wire::memory_response;

/// The response to a request, by how the request was answered.
#[derive(Drop)]
pub enum Response {
    /// It was served.
    Served(Vec<u8>),
    /// Memory was wanted; the response stands ready.
    ShortOfMemory,
    /// The zone of a write could not be read.
    ZonesFailed(Vec<u8>),
    /// The next step had no room in the journal.
    JournalFull(Vec<u8>),
    /// A call of the disk failed.
    DiskFailed(Vec<u8>),
}

impl Response {
    /// Its bytes.
    pub fn as_bytes(&self) -> &[u8]
        ensures { result.now ≡ bytes_of self.now }
    {
        match self {
            Response::Served(text) => text,
            Response::ShortOfMemory => memory_response(),
            Response::ZonesFailed(text) => text,
            Response::JournalFull(text) => text,
            Response::DiskFailed(text) => text,
        }
    }
}
