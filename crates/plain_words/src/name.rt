ghost use Rattle.std.specs.Prelude.{◌≡◌, None, position, not, IfOk, IfErr};
ghost use Rattle.plain_words.specs.Words.{IsFault, is_name_byte, name_fault};

use crate::copying::TryCopy;
use crate::limits::LONGEST_NAME;
use crate::word::{NameFault, ascii_string, fault_of_word};
use std::alloc::{AllocError, Global};
use std::cmp::Ordering;
use std::marker::Model;

/// The name of a schedule or a group: 1 to 64 bytes of letters, digits, `-`, `_` and `.`
/// (EventBridge Scheduler API Reference, `Name`). Contracts see its bytes.
#[derive(Debug, Drop)]
pub struct Name {
    text: String,
}

impl Model for Name {
    ghost use Rattle.std.specs.Prelude.{◌≡◌, ℕ, List, None};
    ghost use Rattle.std.specs.String.{string_bytes};
    ghost use Rattle.plain_words.specs.Words.{name_fault};

    ghost Value = { List ℕ };

    ghost view = { λ n. string_bytes n.text };

    ghost invariant = { λ n. name_fault (string_bytes n.text) ≡ None };
}

fn fault_of(bytes: &[u8]) -> Option<NameFault>
    ensures { result ≡ name_fault bytes.now }
{
    fault_of_word(bytes, LONGEST_NAME, first_bad_byte(bytes))
}

fn first_bad_byte(bytes: &[u8]) -> Option<usize>
    ensures { result ≡ position (λ b. not (is_name_byte b)) bytes.now }
{
    bytes.iter().position(|byte| !is_name_byte(*byte))
}

fn is_name_byte(byte: u8) -> bool
    ensures { result ≡ is_name_byte byte }
{
    byte.is_ascii_alphanumeric() || byte == b'-' || byte == b'_' || byte == b'.'
}

impl Name {
    /// Reads a name. `OutOfMemory` comes only where the bytes are a name.
    pub fn read(alloc: Global, bytes: &[u8]) -> Result<Name, NameFault>
        ensures ok { IfOk result (λ name. name ≡ bytes.now) }
        ensures valid { IfOk result (λ _. name_fault bytes.now ≡ None) }
        ensures err { IfErr result (λ fault. IsFault fault (name_fault bytes.now)) }
    {
        if let Some(fault) = fault_of(bytes) {
            return Err(fault);
        }
        match ascii_string(alloc, bytes) {
            Ok(text) => Ok(Name { text }),
            Err(_) => Err(NameFault::OutOfMemory),
        }
    }

    /// The bytes of the name, all of them ASCII.
    pub fn as_bytes(&self) -> &[u8]
        ensures value { result.now ≡ self.now }
        ensures valid { name_fault self.now ≡ None }
    {
        self.text.as_bytes()
    }

    /// The name as text.
    pub fn as_str(&self) -> &str
        ensures value { result.now ≡ self.now }
        ensures valid { name_fault self.now ≡ None }
    {
        self.text.as_str()
    }
}

impl TryCopy for Name {
    fn copy(&self) -> Result<Name, AllocError> {
        Ok(Name {
            text: self.text.clone()?,
        })
    }
}

impl PartialEq for Name {
    ghost use Rattle.std.specs.Prelude.{nat_eq};
    ghost use Rattle.std.specs.Cmp.Lexicographic.{pointwise};
    ghost use Rattle.std.specs.Cmp.Rules.{comparing};
    ghost use Rattle.std.proofs.Common.{rules};

    ghost eq = { pointwise nat_eq };

    ghost laws = { Prim.search (comparing, rules) };

    fn eq(&self, other: &Name) -> bool {
        self.as_bytes() == other.as_bytes()
    }
}

impl Eq for Name {
    ghost use Rattle.std.specs.Cmp.Rules.{comparing};
    ghost use Rattle.std.proofs.Common.{rules};

    ghost laws = { Prim.search (comparing, rules) };
}
