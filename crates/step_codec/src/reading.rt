//! The step that a payload spells.
ghost use Rattle.std.specs.Prelude.{◌≡◌, Some, Ok, Err, IfOk, IfErr};
ghost use Rattle.sched_plain.specs.declared.step.Step.{Step};
ghost use Rattle.sched_plain.specs.Validity.{IsValid};
ghost use Rattle.step_codec.specs.Faults.{Answers, Tells, first_fault};
ghost use Rattle.step_codec.specs.Payload.{payload_of};
ghost use Rattle.step_codec.specs.declared.fault.StepFault.{StepFault};

use crate::fault::StepFault;
use crate::read::read;
use sched_plain::Step;
use std::alloc::Global;

/// Reads a whole payload. Each payload that can be read is that of exactly one valid step.
///
/// Memory is taken only for the texts and the list of the step. Fails with the first fault from the
/// first byte on, at its place; [`StepFault::OutOfMemory`] may come in place of any other answer.
pub fn read_step(alloc: Global, payload: &[u8]) -> Result<Step, StepFault>
    // What is read is a valid step.
    ensures valid { IfOk result IsValid }
    // The payload is its own.
    ensures payload { IfOk result (λ step. payload.now ≡ payload_of step) }
    // The payload of a valid step is read as that step.
    ensures back { (step : Step) → IsValid step → payload.now ≡ payload_of step → Answers result (Ok step) }
    // Any other payload has a first fault, which is told.
    ensures fault { (fault : StepFault) → first_fault payload.now ≡ Some fault → Answers result (Err fault) }
    ensures first { IfErr result (λ fault. Tells fault payload.now) }
    // Two valid steps have one payload only where they are the same.
    ensures once { (a b : Step) → IsValid a → IsValid b → payload_of a ≡ payload_of b → a ≡ b }
{
    read(alloc, payload)
}
