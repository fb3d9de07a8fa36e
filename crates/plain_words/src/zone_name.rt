ghost use Rattle.std.specs.Prelude.{◌≡◌, ◌<◌, None, length, IfOk, IfErr};
ghost use Rattle.plain_words.specs.Words.{IsFault, first_below, is_bad_zone_place, is_loose_place, is_zone_byte, zone_name_fault};

use crate::copying::TryCopy;
use crate::limits::LONGEST_ZONE_NAME;
use crate::word::{NameFault, ascii_string, fault_of_word};
use std::alloc::{AllocError, Global};
use std::cmp::Ordering;
use std::marker::Model;

/// The name of a time zone, as in `America/New_York`: 1 to 50 bytes of letters, digits, `_`, `-`, `+`
/// and `/`, where no `/` is first, last or behind another. Contracts see its bytes.
#[derive(Debug, Drop)]
pub struct ZoneName {
    text: String,
}

impl Model for ZoneName {
    ghost use Rattle.std.specs.Prelude.{◌≡◌, ℕ, List, None};
    ghost use Rattle.std.specs.String.{string_bytes};
    ghost use Rattle.plain_words.specs.Words.{zone_name_fault};

    ghost Value = { List ℕ };

    ghost view = { λ z. string_bytes z.text };

    ghost invariant = { λ z. zone_name_fault (string_bytes z.text) ≡ None };
}

fn fault_of(bytes: &[u8]) -> Option<NameFault>
    ensures { result ≡ zone_name_fault bytes.now }
{
    fault_of_word(bytes, LONGEST_ZONE_NAME, first_bad_byte(bytes))
}

fn first_bad_byte(bytes: &[u8]) -> Option<usize>
    ensures { result ≡ first_below (is_bad_zone_place bytes.now) (length bytes.now) }
{
    for at in 0..bytes.len() {
        if is_bad_place(bytes, at) {
            return Some(at);
        }
    }
    None
}

fn is_bad_place(bytes: &[u8], at: usize) -> bool
    requires { at < length bytes.now }
    ensures { result ≡ is_bad_zone_place bytes.now at }
{
    let byte = bytes[at];
    !is_zone_byte(byte) || byte == b'/' && is_loose_place(bytes, at)
}

/// Whether a slash at this place parts nothing: it is first, last or behind another.
fn is_loose_place(bytes: &[u8], at: usize) -> bool
    requires { at < length bytes.now }
    ensures { result ≡ is_loose_place bytes.now at }
{
    at == 0 || at == bytes.len() - 1 || bytes[at - 1] == b'/'
}

fn is_zone_byte(byte: u8) -> bool
    ensures { result ≡ is_zone_byte byte }
{
    byte.is_ascii_alphanumeric() || byte == b'_' || byte == b'-' || byte == b'+' || byte == b'/'
}

impl ZoneName {
    /// Reads a zone's name. `OutOfMemory` comes only where the bytes are a name.
    pub fn read(alloc: Global, bytes: &[u8]) -> Result<ZoneName, NameFault>
        ensures ok { IfOk result (λ zone. zone ≡ bytes.now) }
        ensures valid { IfOk result (λ _. zone_name_fault bytes.now ≡ None) }
        ensures err { IfErr result (λ fault. IsFault fault (zone_name_fault bytes.now)) }
    {
        if let Some(fault) = fault_of(bytes) {
            return Err(fault);
        }
        match ascii_string(alloc, bytes) {
            Ok(text) => Ok(ZoneName { text }),
            Err(_) => Err(NameFault::OutOfMemory),
        }
    }

    /// The bytes of the name, all of them ASCII.
    pub fn as_bytes(&self) -> &[u8]
        ensures value { result.now ≡ self.now }
        ensures valid { zone_name_fault self.now ≡ None }
    {
        self.text.as_bytes()
    }

    /// The name as text.
    pub fn as_str(&self) -> &str
        ensures value { result.now ≡ self.now }
        ensures valid { zone_name_fault self.now ≡ None }
    {
        self.text.as_str()
    }
}

impl TryCopy for ZoneName {
    fn copy(&self) -> Result<ZoneName, AllocError> {
        Ok(ZoneName {
            text: self.text.clone()?,
        })
    }
}

impl PartialEq for ZoneName {
    ghost use Rattle.std.specs.Prelude.{nat_eq};
    ghost use Rattle.std.specs.Cmp.Lexicographic.{pointwise};
    ghost use Rattle.std.specs.Cmp.Rules.{comparing};
    ghost use Rattle.std.proofs.Common.{rules};

    ghost eq = { pointwise nat_eq };

    ghost laws = { Prim.search (comparing, rules) };

    fn eq(&self, other: &ZoneName) -> bool {
        self.as_bytes() == other.as_bytes()
    }
}

impl Eq for ZoneName {
    ghost use Rattle.std.specs.Cmp.Rules.{comparing};
    ghost use Rattle.std.proofs.Common.{rules};

    ghost laws = { Prim.search (comparing, rules) };
}
