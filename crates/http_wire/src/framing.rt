//! Requests back to back in a stream (RFC 9112). No byte past a request is taken: the head comes byte by
//! byte, the body in blocks.
ghost use Rattle.std.specs.Prelude.{◌≡◌, ◌≢◌, ◌+◌, ◌^◌, ◌<◌, ◌≤◌, ℕ, List, [], ◌++◌, length, None, Ok, IfOk, IfErr, IfSome};
ghost use Rattle.httparse.specs.Grammar.{RequestHead};
ghost use Rattle.outside.specs.Faults.{Rose};
ghost use Rattle.http_wire.specs.Framing.{request_of, HoldsOneList, IsNoMessage, TakesRequest, TakesPart, TakesAtMostOne};
ghost use Rattle.http_wire.specs.Heads.{BeginsWithHead};

mod body;
mod head;
mod header_values;

use crate::limits::{BODY_LIMIT, HEAD_LIMIT, HEADER_LIMIT};
use crate::request::HttpRequest;
use crate::source::Source;
use body::read_body;
use head::read_head;
use header_values::{length_of, values_of};
use httparse::Status;
use httparse::spans::{EMPTY_HEADER_SPAN, parse_request};
use plain_words::Blob;
use std::alloc::{AllocError, Global};

/// Why no request was read.
#[derive(Clone, Copy, Debug, PartialEq, Eq)]
pub enum FrameFault {
    /// What stands there is no request.
    Unframed,
    /// A call of the source failed.
    SourceFailed,
    /// Memory was wanted.
    OutOfMemory,
}

/// The request that a head and a body make.
fn request_from(alloc: Global, head: &[u8], body: Vec<u8>) -> Result<HttpRequest, AllocError>
    requires { (h : RequestHead) × (rest : List ℕ) × BeginsWithHead head.now h rest }
    ensures { IfOk result (λ request. (h : RequestHead) (rest : List ℕ) → BeginsWithHead head.now h rest
        → request ≡ request_of (record { head = h; body = body.items })) }
{
    let mut headers = [EMPTY_HEADER_SPAN; HEADER_LIMIT];
    match parse_request(head, &mut headers) {
        Ok(Status::Complete(found)) => Ok(HttpRequest {
            method: Blob::from_vec(found.method.of(head).to_vec(alloc)?),
            target: Blob::from_vec(found.path.of(head).to_vec(alloc)?),
            moments: values_of(alloc, head, &headers[..found.headers], b"x-moment")?,
            body: Blob::from_vec(body),
        }),
        _ => unreachable!(),
    }
}

/// Reads one request and not one byte more, or none where the source is at its end before a first byte.
///
/// `Unframed` says that something stands there, and it is no request; what was read then is lost.
pub fn read_request<S: Source>(
    alloc: Global,
    source: &mut S,
) -> Result<Option<HttpRequest>, FrameFault>
    ensures found { IfOk result (λ o. IfSome o (λ request.
        TakesRequest (S.left source.old) request (S.left source.new))) }
    ensures ended { result ≡ Ok None
        → IfSome (S.left source.old) (λ bytes. bytes ≡ []) × (S.left source.new ≡ S.left source.old) }
    ensures unframed { IfErr result (λ e. e ≡ FrameFault.Unframed
        → IfSome (S.left source.old) IsNoMessage) }
    ensures part { IfErr result (λ e. e ≢ FrameFault.OutOfMemory
        → TakesPart (S.left source.old) (S.left source.new)) }
    ensures wanting { IfErr result (λ e. e ≡ FrameFault.OutOfMemory
        → TakesAtMostOne (S.left source.old) (S.left source.new)) }
    ensures failed { IfErr result (λ e. e ≡ FrameFault.SourceFailed
        → Rose (S.faults source.old) (S.faults source.new)) }
    ensures later { S.faults source.old ≤ S.faults source.new }
    ensures bounded { S.supply source.old ≤ S.supply source.new + (HEAD_LIMIT + BODY_LIMIT) }
    ensures started { S.supply source.old < 2 ^ 64 }
    ensures took { IfOk result (λ o. IfSome o (λ request.
        S.supply source.new < S.supply source.old)) }
    ensures spent { IfErr result (λ e. e ≡ FrameFault.Unframed
        → S.supply source.new < S.supply source.old) }
    ensures falls { S.supply source.new ≤ S.supply source.old }
{
    let head = match read_head(alloc, source) {
        Ok(Some(head)) => head,
        Ok(None) => return Ok(None),
        Err(fault) => return Err(fault),
    };
    let Some(length) = length_of(&head) else {
        return Err(FrameFault::Unframed);
    };
    let body = match read_body(alloc, source, length as usize) {
        Ok(body) => body,
        Err(fault) => return Err(fault),
    };
    match request_from(alloc, &head, body) {
        Ok(request) => Ok(Some(request)),
        Err(_) => Err(FrameFault::OutOfMemory),
    }
}

/// A law of framing: a stream holds one list of requests, and one rest stands behind them.
pub fn frames_one_list()
    ensures { HoldsOneList }
{}
