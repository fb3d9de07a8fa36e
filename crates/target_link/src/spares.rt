ghost use Rattle.std.specs.Prelude.{◌≡◌, ◌+◌, ◌<◌, ◌≤◌, length, IfOk, OnOk};

use plain_words::Blob;
use std::alloc::{AllocError, Global};
use std::marker::Model;

/// Empty buffers, each with room for as many bytes as a request may have.
#[derive(Debug, Drop)]
pub struct Spares {
    buffers: Vec<Vec<u8>>,
    most_bytes: usize,
}

impl Model for Spares {
    ghost use Rattle.std.specs.Prelude.{All, vec_len};
    ghost use Rattle.target_link.specs.Spares.{IsSpare, Ready};

    ghost Value = { Ready };

    ghost view = { λ s. record { count = vec_len s.buffers; most_bytes = s.most_bytes } };

    ghost invariant = { λ s. All (IsSpare s.most_bytes) s.buffers.items };
}

impl Spares {
    /// No buffer.
    pub fn new(alloc: Global) -> Spares
        ensures { result.count ≡ 0 }
    {
        Spares {
            buffers: Vec::new(alloc),
            most_bytes: 0,
        }
    }

    /// So many buffers of so many bytes.
    pub fn filled(alloc: Global, count: u8, most_bytes: usize) -> Result<Spares, AllocError>
        ensures count { IfOk result (λ spares. spares.count ≡ count) }
        ensures most_bytes { IfOk result (λ spares. spares.most_bytes ≡ most_bytes) }
    {
        let mut spares = Spares {
            buffers: Vec::new(alloc),
            most_bytes,
        };
        for _ in 0..count {
            spares.add(alloc)?;
        }
        Ok(spares)
    }

    fn add(&mut self, alloc: Global) -> Result<(), AllocError>
        ensures count { OnOk result (self.new.count ≡ self.old.count + 1) }
        ensures most_bytes { self.new.most_bytes ≡ self.old.most_bytes }
    {
        let buffer = Vec::with_capacity(alloc, self.most_bytes)?;
        self.buffers.push(buffer)?;
        Ok(())
    }

    /// The bytes in one of the buffers, which is no longer spare. Takes no memory.
    pub fn keep(&mut self, bytes: &[u8]) -> Blob
        requires count { 0 < self.old.count }
        requires fits { length bytes.now ≤ self.old.most_bytes }
        ensures value { result ≡ bytes.now }
        ensures count { self.old.count ≡ self.new.count + 1 }
        ensures most_bytes { self.new.most_bytes ≡ self.old.most_bytes }
    {
        let mut buffer = self.buffers.pop().unwrap();
        let _ = buffer.extend_from_slice(bytes);
        Blob::from_vec(buffer)
    }
}
