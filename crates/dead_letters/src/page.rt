ghost use Rattle.std.specs.Prelude.{◌≡◌, ◌+◌, ◌<◌, ◌^◌, IfOk, length, take, drop};

use sched_plain::{Letter, Letters};
use std::alloc::{AllocError, Global};

/// At most so many of the letters behind the first `after`.
pub fn page_of(
    alloc: Global,
    letters: &[Letter],
    after: u64,
    max: u8,
) -> Result<Letters, AllocError>
    ensures page { IfOk result (λ page. page ≡ take max (drop after letters.now)) }
    ensures numbers { IfOk result (λ page. after + length page < 2 ^ 64) }
{
    let from = (after as usize).min(letters.len());
    let count = (max as usize).min(letters.len() - from);
    Ok(Letters::from_vec(Vec::from_slice(alloc, &letters[from..from + count])?))
}
