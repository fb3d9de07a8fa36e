ghost use Rattle.std.specs.Prelude.{◌≡◌, position, not, IfOk};
ghost use Rattle.std.specs.Str.{IsAscii};
ghost use Rattle.std.specs.String.{string_bytes};
ghost use Rattle.plain_words.specs.Words.{word_fault};

use std::alloc::{AllocError, Global};

/// Why bytes are no name, token or zone name; the first of these that holds.
#[derive(Debug, Clone, Copy, PartialEq, Eq)]
pub enum NameFault {
    /// There is no byte.
    Empty,
    /// There are more bytes than the limit; `len` is how many there are.
    Long { len: usize },
    /// The byte at `at`, counted from 0, is the first that may not stand there.
    BadByte { at: usize },
    /// There was no memory to keep the word in.
    OutOfMemory,
}

/// The fault of a word, given where its first bad byte is.
pub fn fault_of_word(bytes: &[u8], most: usize, bad: Option<usize>) -> Option<NameFault>
    ensures { result ≡ word_fault most bad bytes.now }
{
    if bytes.is_empty() {
        return Some(NameFault::Empty);
    }
    if bytes.len() > most {
        return Some(NameFault::Long { len: bytes.len() });
    }
    match bad {
        Some(at) => Some(NameFault::BadByte { at }),
        None => None,
    }
}

/// Bytes of ASCII as a string of its own.
pub fn ascii_string(alloc: Global, bytes: &[u8]) -> Result<String, AllocError>
    requires { IsAscii bytes.now }
    ensures { IfOk result (λ text. string_bytes text ≡ bytes.now) }
{
    String::from_utf8_lossy(alloc, bytes)
}
