//! Why a request has no call.
ghost use Rattle.std.specs.Prelude.{◌≡◌, ◌++◌, IfOk};
ghost use Rattle.sched_calls.specs.Replies.{refusal};

use sched_calls::Refusal;
use sched_plain::Text;
use std::alloc::{AllocError, Global};

/// Why a request has no call.
#[derive(Debug, Drop)]
pub enum DecodeFault {
    /// The first rule that it breaks.
    Refused(Refusal),
    /// There was no memory to read it.
    OutOfMemory,
}

impl From<AllocError> for DecodeFault {
    ghost use Rattle.std.specs.Prelude.{◌≡◌};
    ghost use Rattle.request_fields.specs.declared.fault.DecodeFault.TheVariants as faults;

    ghost from_gives = { λ _ fault. fault ≡ faults.OutOfMemory };

    fn from(_: AllocError) -> DecodeFault {
        DecodeFault::OutOfMemory
    }
}

/// The status of a request that is not valid.
pub const BAD_REQUEST: u16 = 400;

/// The refusal by a rule, with the status of its answer and the path of what it is about. An `Err` is want of memory.
pub fn refused(
    alloc: Global,
    rule: u8,
    status: u16,
    prefix: &str,
    name: &str,
) -> Result<Refusal, AllocError>
    ensures { IfOk result (λ it. it ≡ refusal rule status (prefix.now ++ name.now)) }
{
    let mut path = String::from_str(alloc, prefix)?;
    path.push_str(name)?;
    Ok(Refusal {
        rule,
        status,
        subject: Text::from_string(path),
    })
}
