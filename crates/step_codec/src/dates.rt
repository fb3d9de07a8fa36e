//! Moments that may be left out.
ghost use Rattle.std.specs.Prelude.{◌≡◌, ◌∷◌};
ghost use Rattle.step_codec.specs.Faults.{Reads};
ghost use Rattle.step_codec.specs.Rules as rule;
ghost use Rattle.step_codec.specs.Tables.{date_at};

use crate::fault::FieldFault;
use crate::numbers::number_64;
use sched_plain::LAST_MOMENT;

/// One byte 0 for no moment, or one byte 1 and the seconds since 1970 UTC.
#[tactic(auto, unfolding(crate::specs::Tables::date_at))]
pub(crate) fn date(bytes: &[u8]) -> Result<(Option<u64>, &[u8]), FieldFault>
    ensures { Reads (λ x. (x.0, x.1.now)) result (date_at rule.is_moment bytes.now) }
{
    match bytes {
        [] => Err(FieldFault::Cut),
        [0, behind @ ..] => Ok((None, behind)),
        [1, behind @ ..] => moment_behind(behind),
        [_, ..] => Err(FieldFault::Broken { left: bytes.len() }),
    }
}

/// The moment behind its flag.
#[tactic(auto, unfolding(crate::specs::Tables::date_at))]
fn moment_behind(bytes: &[u8]) -> Result<(Option<u64>, &[u8]), FieldFault>
    ensures { Reads (λ x. (x.0, x.1.now)) result (date_at rule.is_moment (1 ∷ bytes.now)) }
{
    let (moment, behind) = number_64(bytes)?;
    if moment > LAST_MOMENT {
        return Err(FieldFault::Broken {
            left: 1 + bytes.len(),
        });
    }
    Ok((Some(moment), behind))
}
