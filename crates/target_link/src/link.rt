ghost use Rattle.std.specs.Prelude.{◌≡◌, ℕ, ◌+◌, ◌<◌, ◌≤◌, length, Option, List, IfOk, OnOk, OnErr};
ghost use Rattle.target_link.specs.declared.link.Sent.{Sent};
ghost use Rattle.target_link.specs.Told.{with_sent, heard_by};
ghost use Rattle.outside.specs.Faults.{Rose};

use crate::address::Address;
use plain_words::{Blob, TryCopy};
use std::alloc::AllocError;

/// The most bytes of a reply that are read: a head that is longer says nothing of its attempt.
pub const LONGEST_REPLY: usize = 65_536;

/// The request went out and no reply came: whether the target received it is not known.
#[derive(Debug, Clone, Copy, PartialEq, Eq)]
pub struct Lost;

/// What a link brings back for one request.
#[derive(Debug, Drop)]
pub enum Heard {
    /// These bytes, none where the target closed the connection at once.
    Reply(Blob),
    /// Nothing: the connection failed.
    Loss,
}

/// One request that a link was handed, and what it brought back.
#[derive(Debug, Drop)]
pub struct Sent {
    /// The address that it was handed with.
    pub to: Address,
    /// Its bytes.
    pub request: Blob,
    /// For how many bytes of a reply there was room.
    pub room: usize,
    /// What came back for it.
    pub heard: Heard,
}

impl TryCopy for Heard {
    fn copy(&self) -> Result<Heard, AllocError> {
        match self {
            Heard::Reply(bytes) => Ok(Heard::Reply(bytes.copy()?)),
            Heard::Loss => Ok(Heard::Loss),
        }
    }
}

impl TryCopy for Sent {
    fn copy(&self) -> Result<Sent, AllocError> {
        Ok(Sent {
            to: self.to,
            request: self.request.copy()?,
            room: self.room,
            heard: self.heard.copy()?,
        })
    }
}

/// A way to targets, one request after another.
pub trait Link {
    /// What was sent, the first request first; `None` of a link that does not tell.
    ghost told: { Self → Option (List Sent) };
    /// How many requests were lost. A count that has come to the greatest u64 stays there.
    ghost losses: { Self → ℕ };
    /// How many more requests there is room for.
    ghost sends_left: { Self → ℕ };
    /// The most bytes of a request that there is room for.
    ghost most_bytes: { Self → ℕ };

    /// Makes room for `sends` requests of at most `longest` bytes each, in place of the room there was.
    fn ready(&mut self, sends: u8, longest: usize) -> Result<(), AllocError>
        ensures sends { OnOk result (sends_left self.new ≡ sends) }
        ensures most_bytes { OnOk result (most_bytes self.new ≡ longest) }
        ensures told { told self.new ≡ told self.old }
        ensures losses { losses self.new ≡ losses self.old };

    /// Sends a request and puts the reply into the front of `reply`, cut where it does not fit; the answer is how
    /// many bytes of it there are. Takes no memory.
    fn send(&mut self, to: Address, request: &[u8], reply: &mut [u8]) -> Result<usize, Lost>
        requires sends { 0 < sends_left self.old }
        requires fits { length request.now ≤ most_bytes self.old }
        ensures used { sends_left self.old ≡ sends_left self.new + 1 }
        ensures most_bytes { most_bytes self.new ≡ most_bytes self.old }
        ensures within { IfOk result (λ n. n ≤ length reply.old) }
        ensures told { told self.new ≡ with_sent to request.now (length reply.old) (heard_by result reply.new) (told self.old) }
        ensures count { losses self.old ≤ losses self.new }
        ensures quiet { OnOk result (losses self.new ≡ losses self.old) }
        ensures loud { OnErr result (Rose (losses self.old) (losses self.new)) };
}
