//! The buffer in which a frame is made, with room for the longest one.
ghost use Rattle.std.specs.Prelude.{◌≡◌, ◌≤◌, ◌<◌, ◌+◌, ◌^◌, ◌++◌, ℕ, List, [], length, IfOk};
ghost use Rattle.step_codec.specs.Cells.{Date, Eight, Four, Number, One, Two, Words, big_endian, spell};

use std::alloc::{AllocError, Global};
use std::marker::Model;

/// The most bytes of a payload.
pub const LONGEST_PAYLOAD: usize = 131_072;

/// The most bytes of a frame: the length of its payload in four bytes, the payload, and one byte behind it.
pub const LONGEST_FRAME: usize = 131_077;

/// A buffer with room for the longest frame. Contracts see the bytes in it, and its room.
#[derive(Debug, Drop)]
pub struct FrameBuf {
    bytes: Vec<u8>,
}

impl Model for FrameBuf {
    ghost use Rattle.std.specs.Prelude.{◌≤◌, ◌-◌, vec_len, vec_capacity};
    ghost use Rattle.step_codec.specs.Buffer.{Buffer};

    ghost Value = { Buffer };

    ghost view = { λ b. record { bytes = b.bytes.items; room = vec_capacity b.bytes - vec_len b.bytes } };

    ghost invariant = { λ b. 131_077 ≤ vec_capacity b.bytes };
}

impl FrameBuf {
    /// An empty buffer. Fails for want of memory alone.
    pub fn new(alloc: Global) -> Result<FrameBuf, AllocError>
        ensures { IfOk result (λ b. b.bytes ≡ []) }
    {
        let bytes = Vec::with_capacity(alloc, LONGEST_FRAME)?;
        Ok(FrameBuf { bytes })
    }

    /// The bytes of the frame that was written last.
    pub fn as_bytes(&self) -> &[u8]
        ensures { result.now ≡ self.now.bytes }
    {
        self.bytes.as_slice()
    }

    pub(crate) fn clear(&mut self)
        ensures bytes { self.new.bytes ≡ [] }
        ensures room { LONGEST_FRAME ≤ self.new.room }
    {
        self.bytes.clear();
    }

    /// How many bytes there are.
    pub(crate) fn len(&self) -> usize
        ensures { result ≡ length self.now.bytes }
    {
        self.bytes.len()
    }

    /// These bytes behind the others.
    pub(crate) fn put(&mut self, bytes: &[u8])
        requires { length bytes.now ≤ self.old.room }
        ensures bytes { self.new.bytes ≡ self.old.bytes ++ bytes.now }
        ensures room { self.old.room ≤ self.new.room + length bytes.now }
    {
        let _ = self.bytes.extend_from_slice(bytes);
    }

    pub(crate) fn put_8(&mut self, n: u8)
        requires { 1 ≤ self.old.room }
        ensures bytes { self.new.bytes ≡ self.old.bytes ++ spell (Number One n) }
        ensures room { self.old.room ≤ self.new.room + 1 }
    {
        self.put(&n.to_be_bytes());
    }

    pub(crate) fn put_16(&mut self, n: u16)
        requires { 2 ≤ self.old.room }
        ensures bytes { self.new.bytes ≡ self.old.bytes ++ spell (Number Two n) }
        ensures room { self.old.room ≤ self.new.room + 2 }
    {
        self.put(&n.to_be_bytes());
    }

    pub(crate) fn put_32(&mut self, n: u32)
        requires { 4 ≤ self.old.room }
        ensures bytes { self.new.bytes ≡ self.old.bytes ++ spell (Number Four n) }
        ensures room { self.old.room ≤ self.new.room + 4 }
    {
        self.put(&n.to_be_bytes());
    }

    pub(crate) fn put_64(&mut self, n: u64)
        requires { 8 ≤ self.old.room }
        ensures bytes { self.new.bytes ≡ self.old.bytes ++ spell (Number Eight n) }
        ensures room { self.old.room ≤ self.new.room + 8 }
    {
        self.put(&n.to_be_bytes());
    }

    /// A text behind its length in one byte.
    pub(crate) fn put_words_8(&mut self, text: &[u8])
        requires fits { length text.now < 2 ^ 8 }
        requires room { 1 + length text.now ≤ self.old.room }
        ensures bytes { self.new.bytes ≡ self.old.bytes ++ spell (Words One text.now) }
        ensures room { self.old.room ≤ self.new.room + (1 + length text.now) }
    {
        self.put_8(text.len() as u8);
        self.put(text);
    }

    /// A text behind its length in two bytes.
    pub(crate) fn put_words_16(&mut self, text: &[u8])
        requires fits { length text.now < 2 ^ 16 }
        requires room { 2 + length text.now ≤ self.old.room }
        ensures bytes { self.new.bytes ≡ self.old.bytes ++ spell (Words Two text.now) }
        ensures room { self.old.room ≤ self.new.room + (2 + length text.now) }
    {
        self.put_16(text.len() as u16);
        self.put(text);
    }

    /// A text behind its length in four bytes.
    pub(crate) fn put_words_32(&mut self, text: &[u8])
        requires fits { length text.now < 2 ^ 32 }
        requires room { 4 + length text.now ≤ self.old.room }
        ensures bytes { self.new.bytes ≡ self.old.bytes ++ spell (Words Four text.now) }
        ensures room { self.old.room ≤ self.new.room + (4 + length text.now) }
    {
        self.put_32(text.len() as u32);
        self.put(text);
    }

    /// A moment that may be left out: one byte 0, or one byte 1 and the moment.
    pub(crate) fn put_date(&mut self, date: Option<u64>)
        requires { 9 ≤ self.old.room }
        ensures bytes { self.new.bytes ≡ self.old.bytes ++ spell (Date date) }
        ensures room { self.old.room ≤ self.new.room + 9 }
    {
        match date {
            None => self.put_8(0),
            Some(moment) => self.put_flagged(moment),
        }
    }

    fn put_flagged(&mut self, moment: u64)
        requires { 9 ≤ self.old.room }
        ensures bytes { self.new.bytes ≡ self.old.bytes ++ spell (Date (Some moment)) }
        ensures room { self.old.room ≤ self.new.room + 9 }
    {
        self.put_8(1);
        self.put_64(moment);
    }

    /// The number in the first four bytes.
    pub(crate) fn set_front(&mut self, n: u32)
        requires { 4 ≤ length self.old.bytes }
        ensures { (rest : List ℕ) → self.old.bytes ≡ big_endian Four 0 ++ rest → self.new.bytes ≡ big_endian Four n ++ rest }
    {
        let front = n.to_be_bytes();
        self.bytes[0] = front[0];
        self.bytes[1] = front[1];
        self.bytes[2] = front[2];
        self.bytes[3] = front[3];
    }
}
