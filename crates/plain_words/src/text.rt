ghost use Rattle.std.specs.Prelude.{◌≡◌, IfOk, OnOk, IfErr};
ghost use Rattle.std.specs.String.{string_bytes};
ghost use Rattle.std.specs.Str.{IsUtf8};
ghost use Rattle.plain_words.specs.Words.{IsTextFault};

use crate::copying::TryCopy;
use std::alloc::{AllocError, Global};
use std::marker::Model;

/// Text in UTF-8. Contracts see its bytes.
#[derive(Debug, Drop)]
pub struct Text {
    text: String,
}

impl Model for Text {
    ghost use Rattle.std.specs.Prelude.{ℕ, List};
    ghost use Rattle.std.specs.String.{string_bytes};

    ghost Value = { List ℕ };

    ghost view = { λ t. string_bytes t.text };
}

/// Why bytes are no text.
#[derive(Debug, Clone, Copy, PartialEq, Eq)]
pub enum TextFault {
    /// The bytes from `at` on, counted from 0, do not begin with a character in UTF-8.
    BadByte { at: usize },
    /// There was no memory to keep the text in.
    OutOfMemory,
}

fn utf8_of(bytes: &[u8]) -> Result<&str, TextFault>
    ensures ok { IfOk result (λ text. text.now ≡ bytes.now) }
    ensures valid { OnOk result (IsUtf8 bytes.now) }
    ensures err { IfErr result (λ fault. IsTextFault fault bytes.now) }
{
    match str::from_utf8(bytes) {
        Ok(text) => Ok(text),
        Err(error) => Err(TextFault::BadByte {
            at: error.valid_up_to(),
        }),
    }
}

impl Text {
    /// Reads a text. `OutOfMemory` comes only where the bytes are UTF-8.
    pub fn read(alloc: Global, bytes: &[u8]) -> Result<Text, TextFault>
        ensures ok { IfOk result (λ text. text ≡ bytes.now) }
        ensures valid { OnOk result (IsUtf8 bytes.now) }
        ensures err { IfErr result (λ fault. IsTextFault fault bytes.now) }
    {
        let text = utf8_of(bytes)?;
        match String::from_str(alloc, text) {
            Ok(text) => Ok(Text { text }),
            Err(_) => Err(TextFault::OutOfMemory),
        }
    }

    /// The string, seen as a text, without memory.
    pub fn from_string(text: String) -> Text
        ensures { result ≡ string_bytes text }
    {
        Text { text }
    }

    /// Gives the string back, without memory.
    pub fn into_string(self) -> String
        ensures { string_bytes result ≡ self }
    {
        let Text { text } = self;
        text
    }

    /// The text as a string slice.
    pub fn as_str(&self) -> &str
        ensures { result.now ≡ self.now }
    {
        self.text.as_str()
    }

    /// The bytes of the text, which are UTF-8.
    pub fn as_bytes(&self) -> &[u8]
        ensures value { result.now ≡ self.now }
        ensures utf8 { IsUtf8 self.now }
    {
        self.text.as_str().as_bytes()
    }
}

impl TryCopy for Text {
    fn copy(&self) -> Result<Text, AllocError> {
        Ok(Text {
            text: self.text.clone()?,
        })
    }
}

impl PartialEq for Text {
    ghost use Rattle.std.specs.Prelude.{nat_eq};
    ghost use Rattle.std.specs.Cmp.Lexicographic.{pointwise};
    ghost use Rattle.std.specs.Cmp.Rules.{comparing};
    ghost use Rattle.std.proofs.Common.{rules};

    ghost eq = { pointwise nat_eq };

    ghost laws = { Prim.search (comparing, rules) };

    fn eq(&self, other: &Text) -> bool {
        self.as_bytes() == other.as_bytes()
    }
}

impl Eq for Text {
    ghost use Rattle.std.specs.Cmp.Rules.{comparing};
    ghost use Rattle.std.proofs.Common.{rules};

    ghost laws = { Prim.search (comparing, rules) };
}
