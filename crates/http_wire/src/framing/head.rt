//! The head of a request, byte by byte.
ghost use Rattle.std.specs.Prelude.{◌≡◌, ◌≢◌, ℕ, ◌+◌, ◌^◌, ◌<◌, ◌≤◌, ◌⊎◌, List, [], ◌∷◌, ◌++◌, length, Option, None, Ok, IfOk, IfErr, IfSome, IsErr, OnErr, OnOk, option_to_list};
ghost use Rattle.httparse.specs.Grammar.{RequestHead};
ghost use Rattle.http_wire.specs.Devices.{Gives};
ghost use Rattle.outside.specs.Faults.{HasCause, Rose};
ghost use Rattle.http_wire.specs.Heads.{BeginsWithHead, HasNoHead, NeverHasHead, IsHead, IsNoShortHead, TakesNoHead, TakesAtMostHead};

use super::FrameFault;
use crate::limits::{HEAD_LIMIT, HEADER_LIMIT};
use crate::source::{Source, SourceFailed};
use httparse::Status;
use httparse::spans::{EMPTY_HEADER_SPAN, parse_request};
use std::alloc::{AllocError, Global};

/// What the bytes of a head so far are.
#[derive(Clone, Copy, Debug, PartialEq, Eq)]
enum Look {
    /// A head is complete.
    Whole,
    /// None is, and more bytes may make one.
    More,
    /// No bytes that follow make one.
    Bad,
}

/// What these bytes are.
fn look_at(bytes: &[u8]) -> Look
    ensures whole { result ≡ Look.Whole → (h : RequestHead) × (rest : List ℕ)
        × BeginsWithHead bytes.now h rest }
    ensures more { result ≡ Look.More → HasNoHead bytes.now }
    ensures bad { result ≡ Look.Bad → NeverHasHead bytes.now }
{
    let mut headers = [EMPTY_HEADER_SPAN; HEADER_LIMIT];
    match parse_request(bytes, &mut headers) {
        Ok(Status::Complete(_)) => Look::Whole,
        Ok(Status::Partial) => Look::More,
        Err(_) => Look::Bad,
    }
}

/// The next byte, or none at the end.
fn next_byte<S: Source>(source: &mut S) -> Result<Option<u8>, SourceFailed>
    ensures given { IfOk result (λ o. IfSome o (λ b.
        Gives (S.left source.old) (b ∷ []) (S.left source.new))) }
    ensures end { IfOk result (λ o. o ≡ None → IfSome (S.left source.old) (λ bytes. bytes ≡ [])) }
    ensures kept { (result ≡ Ok None) ⊎ IsErr result → S.left source.new ≡ S.left source.old }
    ensures started { S.supply source.old < 2 ^ 64 }
    ensures falls { IfOk result (λ o. S.supply source.old
        ≡ S.supply source.new + length (option_to_list o)) }
    ensures unspent { OnErr result (S.supply source.new ≡ S.supply source.old) }
    ensures cause { HasCause (S.faults source.old) (S.faults source.new) result }
{
    let mut byte = [0];
    match source.read(&mut byte) {
        Ok(0) => Ok(None),
        Ok(_) => Ok(Some(byte[0])),
        Err(failed) => Err(failed),
    }
}

/// Adds the next byte to the bytes of a head, and says what they are then. Each head ends in a line feed.
fn add(head: &mut Vec<u8>, byte: u8) -> Result<Look, AllocError>
    requires { HasNoHead head.old.items }
    ensures added { OnOk result (head.new.items ≡ head.old.items ++ byte ∷ []) }
    ensures whole { IfOk result (λ look. look ≡ Look.Whole
        → (h : RequestHead) × BeginsWithHead head.new.items h []) }
    ensures more { IfOk result (λ look. look ≡ Look.More → HasNoHead head.new.items) }
    ensures bad { IfOk result (λ look. look ≡ Look.Bad → NeverHasHead head.new.items) }
{
    head.push(byte)?;
    if byte != b'\n' {
        return Ok(Look::More);
    }
    Ok(look_at(head))
}

/// Reads the bytes of a head and not one more, or none where the source is at its end.
pub(super) fn read_head<S: Source>(
    alloc: Global,
    source: &mut S,
) -> Result<Option<Vec<u8>>, FrameFault>
    ensures found { IfOk result (λ o. IfSome o (λ head.
        IsHead head.items × Gives (S.left source.old) head.items (S.left source.new))) }
    ensures ended { result ≡ Ok None
        → IfSome (S.left source.old) (λ bytes. bytes ≡ []) × (S.left source.new ≡ S.left source.old) }
    ensures unframed { IfErr result (λ e. e ≡ FrameFault.Unframed
        → IfSome (S.left source.old) IsNoShortHead) }
    ensures part { IfErr result (λ e. e ≢ FrameFault.OutOfMemory
        → TakesNoHead (S.left source.old) (S.left source.new)) }
    ensures wanting { IfErr result (λ e. e ≡ FrameFault.OutOfMemory
        → TakesAtMostHead (S.left source.old) (S.left source.new)) }
    ensures failed { IfErr result (λ e. e ≡ FrameFault.SourceFailed
        → Rose (S.faults source.old) (S.faults source.new)) }
    ensures later { S.faults source.old ≤ S.faults source.new }
    ensures quiet { OnOk result (S.faults source.new ≡ S.faults source.old) }
    ensures bounded { S.supply source.old ≤ S.supply source.new + HEAD_LIMIT }
    ensures started { S.supply source.old < 2 ^ 64 }
    ensures took { IfOk result (λ o. IfSome o (λ head. S.supply source.new < S.supply source.old)) }
    ensures spent { IfErr result (λ e. e ≡ FrameFault.Unframed
        → S.supply source.new < S.supply source.old) }
    ensures falls { S.supply source.new ≤ S.supply source.old }
{
    let mut head = Vec::new(alloc);
    'bytes: for _ in 0..HEAD_LIMIT {
        match next_byte(source) {
            Ok(Some(byte)) => match add(&mut head, byte) {
                Ok(Look::Whole) => return Ok(Some(head)),
                Ok(Look::More) => {}
                Ok(Look::Bad) => return Err(FrameFault::Unframed),
                Err(_) => return Err(FrameFault::OutOfMemory),
            },
            Ok(None) if head.is_empty() => return Ok(None),
            Ok(None) => return Err(FrameFault::Unframed),
            Err(_) => return Err(FrameFault::SourceFailed),
        }
    }
    Err(FrameFault::Unframed)
}
