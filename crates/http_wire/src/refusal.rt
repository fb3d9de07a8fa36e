//! The responses that say what went wrong.
ghost use Rattle.std.specs.Prelude.{◌≡◌, IfOk};
ghost use Rattle.http_wire.specs.Response.{error_name as name_of_error, error_text, memory_text};

use crate::response::write_response;
use std::alloc::{AllocError, Global};

/// The name of the error that goes with a status.
#[tactic(auto, unfolding(crate::specs::Response::error_name))]
fn error_name(status: u16) -> &'static str
    ensures { result.now ≡ name_of_error status }
{
    match status {
        400 => "ValidationException",
        402 => "ServiceQuotaExceededException",
        404 => "ResourceNotFoundException",
        409 => "ConflictException",
        503 => "OutOfMemory",
        _ => "InternalServerException",
    }
}

/// The response of an error with this body, and the number of steps of the history where it tells that.
pub fn write_error(
    alloc: Global,
    status: u16,
    body: &[u8],
    history: Option<u64>,
) -> Result<Vec<u8>, AllocError>
    ensures { IfOk result (λ text. text.items ≡ error_text status body.now history) }
{
    write_response(alloc, status, Some(error_name(status)), body, history)
}

/// The response of a request for which memory was wanted. It stands ready, and takes none.
pub fn memory_response() -> &'static [u8]
    ensures { result.now ≡ memory_text }
{
    b"HTTP/1.1 503 Service Unavailable\r\nContent-Type: application/json\r\nContent-Length: 20\r\nx-amzn-ErrorType: OutOfMemory\r\n\r\n{\"Message\":\"memory\"}"
}
