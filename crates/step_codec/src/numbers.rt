//! Numbers in so many bytes, the highest first.
ghost use Rattle.std.specs.Prelude.{◌≡◌};
ghost use Rattle.step_codec.specs.Cells.{One, Two, Four, Eight};
ghost use Rattle.step_codec.specs.Faults.{Reads};
ghost use Rattle.step_codec.specs.Tables.{cut_at, number_at};

use crate::fault::FieldFault;

/// So many bytes and those behind them.
pub(crate) fn cut(bytes: &[u8], n: usize) -> Result<(&[u8], &[u8]), FieldFault>
    ensures { Reads (λ x. (x.0.now, x.1.now)) result (cut_at n bytes.now) }
{
    if bytes.len() < n {
        return Err(FieldFault::Cut);
    }
    Ok(bytes.split_at(n))
}

/// A number of one byte, and what is behind it.
#[tactic(auto, unfolding(crate::specs::Tables::number_at))]
pub(crate) fn number_8(bytes: &[u8]) -> Result<(u8, &[u8]), FieldFault>
    ensures { Reads (λ x. (x.0, x.1.now)) result (number_at One bytes.now) }
{
    let (front, behind) = cut(bytes, 1)?;
    Ok((front[0], behind))
}

/// A number of two bytes, and what is behind it.
#[tactic(auto, unfolding(crate::specs::Tables::number_at))]
pub(crate) fn number_16(bytes: &[u8]) -> Result<(u16, &[u8]), FieldFault>
    ensures { Reads (λ x. (x.0, x.1.now)) result (number_at Two bytes.now) }
{
    let (front, behind) = cut(bytes, 2)?;
    let number = u16::from_be_bytes([front[0], front[1]]);
    Ok((number, behind))
}

/// A number of four bytes, and what is behind it.
#[tactic(auto, unfolding(crate::specs::Tables::number_at))]
pub(crate) fn number_32(bytes: &[u8]) -> Result<(u32, &[u8]), FieldFault>
    ensures { Reads (λ x. (x.0, x.1.now)) result (number_at Four bytes.now) }
{
    let (front, behind) = cut(bytes, 4)?;
    let number = u32::from_be_bytes([front[0], front[1], front[2], front[3]]);
    Ok((number, behind))
}

/// A number of eight bytes, and what is behind it.
#[tactic(auto, unfolding(crate::specs::Tables::number_at))]
pub(crate) fn number_64(bytes: &[u8]) -> Result<(u64, &[u8]), FieldFault>
    ensures { Reads (λ x. (x.0, x.1.now)) result (number_at Eight bytes.now) }
{
    let (front, behind) = cut(bytes, 8)?;
    let number = u64::from_be_bytes([
        front[0], front[1], front[2], front[3], front[4], front[5], front[6], front[7],
    ]);
    Ok((number, behind))
}
