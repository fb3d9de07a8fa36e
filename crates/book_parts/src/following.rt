//! Whether a step may follow.
ghost use Rattle.std.specs.Prelude.{◌≡◌, ◌≢◌, Ok, Err, IfOk, OnOk, IfErr};
ghost use Rattle.sched_plain.specs.History.{History};
ghost use Rattle.sched_plain.specs.Legal.{why};
ghost use Rattle.sched_plain.specs.Validity.{IsValid};
ghost use Rattle.book_parts.specs.Stands.{Stands, Judged, calendar};
ghost use Rattle.book_parts.specs.Legal.{Judges, WantsNoMemory};

use crate::changes::{change_judged, zone_judged};
use crate::enters::enter_judged;
use crate::judge::{
    begin_judged, close_judged, complete_judged, end_judged, lease_judged, release_judged,
    swept_judged,
};
use crate::parts::Parts;
use sched_plain::{Step, Why};
use std::alloc::{AllocError, Global};

/// Why a step is not taken.
#[derive(Debug, Clone, Copy, PartialEq, Eq)]
pub enum LegalFault {
    /// There was no memory to judge the step with. Only of a Zone and of an Enter is this said.
    OutOfMemory,
    /// The first rule that the step breaks.
    Why(Why),
}

/// The first rule of its kind that a step breaks which is neither a Zone nor an Enter.
fn plain_judged(parts: &Parts, step: &Step) -> Option<Why>
    requires valid { IsValid step.now }
    requires plain { WantsNoMemory step.now }
    ensures { Judged parts.now step.now result }
{
    match step {
        Step::Change { at, write } => change_judged(parts, *at, write),
        Step::Lease {
            at,
            shard,
            worker,
            epoch,
            until,
        } => lease_judged(parts, *at, *shard, *worker, *epoch, *until),
        Step::Release {
            at,
            shard,
            worker,
            epoch,
        } => release_judged(parts, *at, *shard, *worker, *epoch),
        Step::Begin {
            at,
            inc,
            instant,
            number,
            epoch,
        } => begin_judged(parts, *at, *inc, *instant, *number, *epoch),
        Step::End {
            at,
            inc,
            instant,
            number,
            verdict,
            status,
        } => end_judged(parts, *at, *inc, *instant, *number, *verdict, *status),
        Step::Close {
            at,
            inc,
            instant,
            reason,
        } => close_judged(parts, *at, *inc, *instant, *reason),
        Step::Complete { at, inc } => complete_judged(parts, *at, *inc),
        Step::Swept { at, shard } => swept_judged(parts, *at, *shard),
        Step::Boot { .. } | Step::Zone { .. } | Step::Enter { .. } => None,
    }
}

/// The first rule of its kind that a step breaks. It fails only for want of memory.
fn kind_judged(parts: &Parts, alloc: Global, step: &Step) -> Result<Option<Why>, AllocError>
    requires { IsValid step.now }
    ensures judged { IfOk result (Judged parts.now step.now) }
    ensures fails { IfErr result (λ fault. WantsNoMemory step.now → ⊥) }
{
    match step {
        Step::Zone { at, name, bytes } => zone_judged(parts, alloc, *at, name, bytes),
        Step::Enter { at, inc, pairs } => enter_judged(parts, alloc, *at, *inc, pairs),
        _ => Ok(plain_judged(parts, step)),
    }
}

/// The first rule that a step breaks: its moment's, else one of its kind.
fn first_broken(parts: &Parts, alloc: Global, step: &Step) -> Result<(), LegalFault>
    requires { IsValid step.now }
    ensures why { (h : History) → Stands parts.now h → Judges result (why calendar h step.now) }
    ensures memory { WantsNoMemory step.now → result ≢ Err LegalFault.OutOfMemory }
{
    if let Some(why) = step_rules::moment_broken(parts.moment, step) {
        return Err(LegalFault::Why(why));
    }
    match kind_judged(parts, alloc, step) {
        Ok(None) => Ok(()),
        Ok(Some(why)) => Err(LegalFault::Why(why)),
        Err(AllocError) => Err(LegalFault::OutOfMemory),
    }
}

impl Parts {
    /// Whether a step may follow what the parts stand for: Ok exactly where it may, else the first rule that it breaks, with
    /// its values. Only of a Zone, whose bytes are read, and of an Enter, whose instants are listed, memory may be wanted;
    /// so no verdict is lost.
    pub fn legal(&self, alloc: Global, step: &Step) -> Result<(), LegalFault>
        requires { IsValid step.now }
        ensures why { (h : History) → Stands self.now h → Judges result (why calendar h step.now) }
        ensures memory { WantsNoMemory step.now → result ≢ Err LegalFault.OutOfMemory }
    {
        first_broken(self, alloc, step)
    }
}
