//! The moment that the X-Moment headers of a request tell.
ghost use Rattle.std.specs.Prelude.{◌≡◌, codes};
ghost use Rattle.request_fields.specs.Refusals.{Reads};
ghost use Rattle.request_calls.specs.Moments.{moment_of as moment_by, stated_by as stated_by_headers};

use http_wire::{HttpRequest, number_within};
use request_fields::{BAD_REQUEST, DecodeFault, refused};
use sched_plain::{Blob, LAST_MOMENT};
use std::alloc::Global;

/// The most digits of a moment.
const MOMENT_DIGITS: usize = 10;
/// The number of the rule that a request tells at most one moment.
const MOMENT_RULE: u8 = 2;

/// The moment that a request tells by its X-Moment header: 1 to 10 digits, at most 7258118399. None where there is none.
///
/// Fails where a header is no such moment or there are several.
pub fn moment_of(alloc: Global, request: &HttpRequest) -> Result<Option<u64>, DecodeFault>
    ensures { Reads result (moment_by request.now.moments) }
{
    match stated_by(request.moments.as_slice()) {
        Some(stated) => Ok(stated),
        None => {
            let refusal = refused(alloc, MOMENT_RULE, BAD_REQUEST, "", "X-Moment")?;
            Err(DecodeFault::Refused(refusal))
        }
    }
}

/// What headers with these values tell: nothing, or a moment. None where they may not stand so.
fn stated_by(values: &[Blob]) -> Option<Option<u64>>
    ensures { result ≡ stated_by_headers values.now }
{
    match values {
        [] => Some(None),
        [digits] => match number_within(digits.as_bytes(), MOMENT_DIGITS, LAST_MOMENT) {
            Some(moment) => Some(Some(moment)),
            None => None,
        },
        _ => None,
    }
}
