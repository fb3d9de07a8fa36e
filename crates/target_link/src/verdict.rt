ghost use Rattle.std.specs.Prelude.{◌≡◌, ℕ, ◌≤◌, ◌<◌, ◌⊎◌};
ghost use Rattle.plain_words.specs.declared.verdict.Verdict.{Verdict};
ghost use Rattle.target_link.specs.Verdict.{SaysVerdict, verdict_of_status};

use httparse::Status;
use httparse::spans::{EMPTY_HEADER_SPAN, parse_response};
use plain_words::Verdict;

/// The most headers of a reply that is read.
const MOST_HEADERS: usize = 64;
/// The least status of a reply that is read.
const LEAST_STATUS: u16 = 100;

/// What the reply of a target says of the attempt, and the status of its head; `Retry` and 0 where the reply does
/// not begin with a whole head (RFC 9112) of at most 64 headers and a status of 100 or more. Takes no memory.
pub fn verdict_of(reply: &[u8]) -> (Verdict, u16)
    ensures says { SaysVerdict reply.now result.0 result.1 }
    ensures only { (verdict : Verdict) (status : ℕ) → SaysVerdict reply.now verdict status
        → (verdict ≡ result.0) × (status ≡ result.1) }
    ensures status { (result.1 ≡ 0) ⊎ ((LEAST_STATUS ≤ result.1) × (result.1 < 1000)) }
{
    read_verdict(reply)
}

fn read_verdict(reply: &[u8]) -> (Verdict, u16)
    ensures says { SaysVerdict reply.now result.0 result.1 }
    ensures status { (result.1 ≡ 0) ⊎ ((LEAST_STATUS ≤ result.1) × (result.1 < 1000)) }
{
    let mut headers = [EMPTY_HEADER_SPAN; MOST_HEADERS];
    match parse_response(reply, &mut headers) {
        Ok(Status::Complete(head)) => {
            if head.code < LEAST_STATUS {
                (Verdict::Retry, 0)
            } else {
                (verdict_of_status(head.code), head.code)
            }
        }
        _ => (Verdict::Retry, 0),
    }
}

fn verdict_of_status(status: u16) -> Verdict
    ensures { result ≡ verdict_of_status status }
{
    match status {
        0..200 => Verdict::Retry,
        200..300 => Verdict::Done,
        408 | 429 | 500..600 => Verdict::Retry,
        _ => Verdict::Final,
    }
}
