ghost use Rattle.std.specs.Prelude.{◌≡◌, ◌∷◌, ℕ};
ghost use Rattle.journal_file.specs.declared.format.TheConstants.{OPEN};
ghost use Rattle.journal_file.specs.Format.{ClosedHead, BadHead, RecordHead};
ghost use Rattle.journal_file.specs.declared.head.Head.TheVariants as heads;

use crate::format::{LONGEST_PAYLOAD, OPEN};

/// How many bytes a gate and a record's length have.
pub(crate) const HEAD: usize = 5;

/// What begins at a gate.
#[derive(Clone, Copy)]
pub(crate) enum Head {
    /// Nothing: the gate is closed.
    Closed,
    /// A record of so many bytes.
    Record { len: usize },
    /// No record.
    Bad,
}

/// What begins with these bytes.
pub(crate) fn read_head(bytes: &[u8]) -> Head
    ensures closed { result ≡ heads.Closed → ClosedHead bytes.now }
    ensures bad { result ≡ heads.Bad → BadHead bytes.now }
    ensures record_ { (len : ℕ) → result ≡ heads.Record len → RecordHead len bytes.now }
{
    let [gate, rest @ ..] = bytes else {
        return Head::Bad;
    };
    if *gate != OPEN {
        return Head::Closed;
    }
    read_length(rest)
}

fn read_length(rest: &[u8]) -> Head
    ensures gated { result ≡ heads.Closed → ⊥ }
    ensures bad { result ≡ heads.Bad → BadHead (OPEN ∷ rest.now) }
    ensures record_ { (len : ℕ) → result ≡ heads.Record len → RecordHead len (OPEN ∷ rest.now) }
{
    let [a, b, c, d, ..] = rest else {
        return Head::Bad;
    };
    let len = u32::from_be_bytes([*a, *b, *c, *d]) as usize;
    if len == 0 || LONGEST_PAYLOAD < len {
        return Head::Bad;
    }
    Head::Record { len }
}
