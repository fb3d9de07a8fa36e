//! An Enter, with its list of pairs.
ghost use Rattle.std.specs.Prelude.{◌≡◌, ◌≤◌, ◌∷◌, [], ◌++◌, IfOk, IfErr, OnOk, length};
ghost use Rattle.std.specs.List.{All};
ghost use Rattle.step_codec.specs.Cells.{Eight, Number};
ghost use Rattle.step_codec.specs.Faults.{Reads};
ghost use Rattle.step_codec.specs.Format as format;
ghost use Rattle.step_codec.specs.Payload.{IsExact, cells, code, pair_cells};
ghost use Rattle.step_codec.specs.Tables.{in_front, walk};

use crate::fault::FieldFault;
use crate::fields::{incarnation, moment, offset, pair_count};
use sched_plain::{Items, Moment, Pair, Pairs, Step};
use std::alloc::Global;

pub(crate) fn enter(alloc: Global, at: Moment, bytes: &[u8]) -> Result<(Step, &[u8]), FieldFault>
    ensures read { Reads (λ x. (cells x.0, x.1.now)) result (in_front (code 4) (in_front (Number Eight at.0) (walk format.enter_table bytes.now))) }
    ensures exact { IfOk result (λ x. IsExact x.0) }
{
    let (inc, bytes) = incarnation(bytes)?;
    let (count, bytes) = pair_count(bytes)?;
    let (pairs, bytes) = read_pairs(alloc, count, bytes)?;
    Ok((Step::Enter { at, inc, pairs }, bytes))
}

/// A pair of an instant and the moment chosen for it.
fn read_pair(bytes: &[u8]) -> Result<(Pair, &[u8]), FieldFault>
    ensures read { Reads (λ x. (pair_cells (x.0 ∷ []), x.1.now)) result (walk (format.pairs_table 1) bytes.now) }
    ensures exact { IfOk result (λ x. x.0.instant ≤ x.0.chosen) }
{
    let (instant, bytes) = moment(bytes)?;
    let (offset, bytes) = offset(bytes)?;
    let chosen = instant + u64::from(offset);
    Ok((Pair { instant, chosen }, bytes))
}

/// So many pairs.
fn read_pairs(alloc: Global, count: u16, bytes: &[u8]) -> Result<(Pairs, &[u8]), FieldFault>
    ensures read { Reads (λ x. (pair_cells x.0, x.1.now)) result (walk (format.pairs_table count) bytes.now) }
    ensures count { IfOk result (λ x. length x.0 ≡ count) }
    ensures exact { IfOk result (λ x. All (λ p. p.instant ≤ p.chosen) x.0) }
{
    let mut pairs = Items::new(alloc);
    let mut rest = bytes;
    for _ in 0..count {
        let (pair, behind) = read_pair(rest)?;
        add_pair(&mut pairs, pair)?;
        rest = behind;
    }
    Ok((pairs, rest))
}

fn add_pair(pairs: &mut Pairs, pair: Pair) -> Result<(), FieldFault>
    ensures ok { OnOk result (pairs.new ≡ pairs.old ++ pair ∷ []) }
    ensures err { IfErr result (λ fault. fault ≡ FieldFault.NoMemory) }
{
    match pairs.push(pair) {
        Ok(()) => Ok(()),
        Err(_) => Err(FieldFault::NoMemory),
    }
}
