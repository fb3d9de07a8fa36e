//! Reads a payload.
ghost use Rattle.std.specs.Prelude.{◌≡◌, ◌≤◌, IfOk, IfErr, Ok, Err};
ghost use Rattle.step_codec.specs.Cells.{Eight, Number};
ghost use Rattle.step_codec.specs.Faults.{Reads, ReadsWhole, placed, reading, whole_of};
ghost use Rattle.step_codec.specs.Format as format;
ghost use Rattle.step_codec.specs.Payload.{IsExact, cells, code};
ghost use Rattle.step_codec.specs.Tables.{in_front, walk};

use crate::change::change;
use crate::enter::enter;
use crate::fault::{FieldFault, StepFault};
use crate::fields::moment;
use crate::steps::{begin, close, complete, end, lease, release, swept, zone};
use sched_plain::{LAST_MOMENT, Moment, Step};
use std::alloc::Global;

/// The last tag; tags count from 1.
const LAST_TAG: u8 = 11;

/// The step behind its tag.
fn step_behind(alloc: Global, tag: u8, bytes: &[u8]) -> Result<(Step, &[u8]), FieldFault>
    requires least { 1 ≤ tag }
    requires most { tag ≤ LAST_TAG }
    ensures read { Reads (λ x. (cells x.0, x.1.now)) result (in_front (code tag) (walk (format.fields tag) bytes.now)) }
    ensures exact { IfOk result (λ x. IsExact x.0) }
{
    let (at, bytes) = moment(bytes)?;
    step_at(alloc, tag, Moment(at), bytes)
}

/// The step behind its tag and moment.
fn step_at(alloc: Global, tag: u8, at: Moment, bytes: &[u8]) -> Result<(Step, &[u8]), FieldFault>
    requires least { 1 ≤ tag }
    requires most { tag ≤ LAST_TAG }
    requires moment { at.0 ≤ LAST_MOMENT }
    ensures read { Reads (λ x. (cells x.0, x.1.now)) result (in_front (code tag) (in_front (Number Eight at.0) (walk (format.fields_at tag at.0) bytes.now))) }
    ensures exact { IfOk result (λ x. IsExact x.0) }
{
    match tag {
        1 => Ok((Step::Boot { at }, bytes)),
        2 => zone(alloc, at, bytes),
        3 => change(alloc, at, bytes),
        4 => enter(alloc, at, bytes),
        5 => lease(at, bytes),
        6 => release(at, bytes),
        7 => begin(at, bytes),
        8 => end(at, bytes),
        9 => close(at, bytes),
        10 => complete(at, bytes),
        _ => swept(at, bytes),
    }
}

/// The fault of a field by its place in a payload of so many bytes.
fn placed(whole: usize, fault: FieldFault) -> StepFault
    ensures { result ≡ placed whole fault }
{
    match fault {
        FieldFault::Cut => StepFault::Short,
        FieldFault::Broken { left } => StepFault::BadField {
            at: whole.saturating_sub(left),
        },
        FieldFault::NoMemory => StepFault::OutOfMemory,
    }
}

/// A payload of so many bytes behind its tag.
fn read_behind(alloc: Global, tag: u8, behind: &[u8], whole: usize) -> Result<Step, StepFault>
    requires least { 1 ≤ tag }
    requires most { tag ≤ LAST_TAG }
    ensures read { ReadsWhole cells result (whole_of whole (in_front (code tag) (walk (format.fields tag) behind.now))) }
    ensures exact { IfOk result IsExact }
{
    match step_behind(alloc, tag, behind) {
        Err(fault) => Err(placed(whole, fault)),
        Ok((step, rest)) => if rest.is_empty() {
            Ok(step)
        } else {
            Err(StepFault::Long {
                at: whole.saturating_sub(rest.len()),
            })
        },
    }
}

/// A whole payload.
#[tactic(auto, unfolding(crate::specs::Faults::reading))]
pub(crate) fn read(alloc: Global, payload: &[u8]) -> Result<Step, StepFault>
    ensures read { ReadsWhole cells result (reading payload.now) }
    ensures exact { IfOk result IsExact }
{
    match payload {
        [] => Err(StepFault::Short),
        [tag, behind @ ..] => {
            let tag = *tag;
            if tag == 0 || tag > LAST_TAG {
                return Err(StepFault::BadTag { at: 0 });
            }
            read_behind(alloc, tag, behind, payload.len())
        }
    }
}
