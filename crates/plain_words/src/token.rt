ghost use Rattle.std.specs.Prelude.{◌≡◌, None, position, not, IfOk, IfErr};
ghost use Rattle.plain_words.specs.Words.{IsFault, is_token_byte, token_fault};

use crate::copying::TryCopy;
use crate::limits::LONGEST_TOKEN;
use crate::word::{NameFault, ascii_string, fault_of_word};
use std::alloc::{AllocError, Global};
use std::cmp::Ordering;
use std::marker::Model;

/// A client token, which makes a repeated write act once: 1 to 64 bytes of letters, digits, `-` and
/// `_` (EventBridge Scheduler API Reference, `ClientToken`). Contracts see its bytes.
#[derive(Debug, Drop)]
pub struct Token {
    text: String,
}

impl Model for Token {
    ghost use Rattle.std.specs.Prelude.{◌≡◌, ℕ, List, None};
    ghost use Rattle.std.specs.String.{string_bytes};
    ghost use Rattle.plain_words.specs.Words.{token_fault};

    ghost Value = { List ℕ };

    ghost view = { λ t. string_bytes t.text };

    ghost invariant = { λ t. token_fault (string_bytes t.text) ≡ None };
}

fn fault_of(bytes: &[u8]) -> Option<NameFault>
    ensures { result ≡ token_fault bytes.now }
{
    fault_of_word(bytes, LONGEST_TOKEN, first_bad_byte(bytes))
}

fn first_bad_byte(bytes: &[u8]) -> Option<usize>
    ensures { result ≡ position (λ b. not (is_token_byte b)) bytes.now }
{
    bytes.iter().position(|byte| !is_token_byte(*byte))
}

fn is_token_byte(byte: u8) -> bool
    ensures { result ≡ is_token_byte byte }
{
    byte.is_ascii_alphanumeric() || byte == b'-' || byte == b'_'
}

impl Token {
    /// Reads a token. `OutOfMemory` comes only where the bytes are a token.
    pub fn read(alloc: Global, bytes: &[u8]) -> Result<Token, NameFault>
        ensures ok { IfOk result (λ token. token ≡ bytes.now) }
        ensures valid { IfOk result (λ _. token_fault bytes.now ≡ None) }
        ensures err { IfErr result (λ fault. IsFault fault (token_fault bytes.now)) }
    {
        if let Some(fault) = fault_of(bytes) {
            return Err(fault);
        }
        match ascii_string(alloc, bytes) {
            Ok(text) => Ok(Token { text }),
            Err(_) => Err(NameFault::OutOfMemory),
        }
    }

    /// The bytes of the token, all of them ASCII.
    pub fn as_bytes(&self) -> &[u8]
        ensures value { result.now ≡ self.now }
        ensures valid { token_fault self.now ≡ None }
    {
        self.text.as_bytes()
    }

    /// The token as text.
    pub fn as_str(&self) -> &str
        ensures value { result.now ≡ self.now }
        ensures valid { token_fault self.now ≡ None }
    {
        self.text.as_str()
    }
}

impl TryCopy for Token {
    fn copy(&self) -> Result<Token, AllocError> {
        Ok(Token {
            text: self.text.clone()?,
        })
    }
}

impl PartialEq for Token {
    ghost use Rattle.std.specs.Prelude.{nat_eq};
    ghost use Rattle.std.specs.Cmp.Lexicographic.{pointwise};
    ghost use Rattle.std.specs.Cmp.Rules.{comparing};
    ghost use Rattle.std.proofs.Common.{rules};

    ghost eq = { pointwise nat_eq };

    ghost laws = { Prim.search (comparing, rules) };

    fn eq(&self, other: &Token) -> bool {
        self.as_bytes() == other.as_bytes()
    }
}

impl Eq for Token {
    ghost use Rattle.std.specs.Cmp.Rules.{comparing};
    ghost use Rattle.std.proofs.Common.{rules};

    ghost laws = { Prim.search (comparing, rules) };
}
