//! How the step of a record is taken.
ghost use Rattle.std.specs.Prelude.{◌≡◌, Err, IfOk, OnOk};
ghost use Rattle.sched_plain.specs.History.{History, ◌upon◌};
ghost use Rattle.sched_plain.specs.Legal.{MayFollow};
ghost use Rattle.sched_plain.specs.Validity.{IsValid};
ghost use Rattle.sched_plain.specs.declared.step.Step.{Step};
ghost use Rattle.step_codec.specs.Payload.{payload_of};
ghost use Rattle.book_parts.specs.Stands.{calendar};
ghost use Rattle.step_recovery.specs.Recovery.{IsOfNoStep, Takes};
ghost use Rattle.step_recovery.specs.declared.fault.RecordFault.TheVariants as faults;

use crate::fault::RecordFault;
use sched_plain::Step;
use std::alloc::Global;
use step_codec::{StepFault, read_step};
use step_machine::{LegalFault, Machine};

/// Whether a step may follow.
fn judge<M: Machine>(book: &M, step: &Step) -> Result<(), RecordFault>
    requires { IsValid step.now }
    ensures may { OnOk result (M.may book.now step.now) }
    ensures broken { result ≡ Err faults.Broken → (h : History) → M.stands book.now h → MayFollow calendar h step.now → ⊥ }
{
    match book.legal(step) {
        Ok(()) => Ok(()),
        Err(LegalFault::Why(_)) => Err(RecordFault::Broken),
        Err(LegalFault::OutOfMemory) => Err(RecordFault::OutOfMemory),
    }
}

/// Takes a step, if it may follow.
fn take_step<M: Machine>(book: &mut M, step: Step) -> Result<(), RecordFault>
    requires { IsValid step }
    ensures taken { OnOk result ((h : History) → M.stands book.old h → M.stands book.new (step upon h)) }
    ensures broken { result ≡ Err faults.Broken → (h : History) → M.stands book.old h → MayFollow calendar h step → ⊥ }
{
    if let Err(fault) = judge(book, &step) {
        return Err(fault);
    }
    if book.reserve(&step).is_err() {
        return Err(RecordFault::OutOfMemory);
    }
    book.apply(step);
    Ok(())
}

/// The step of a payload.
fn read(alloc: Global, payload: &[u8]) -> Result<Step, RecordFault>
    ensures valid { IfOk result IsValid }
    ensures payload { IfOk result (λ step. payload.now ≡ payload_of step) }
    ensures broken { result ≡ Err faults.Broken → (step : Step) → IsValid step → payload.now ≡ payload_of step → ⊥ }
{
    match read_step(alloc, payload) {
        Ok(step) => Ok(step),
        Err(StepFault::OutOfMemory) => Err(RecordFault::OutOfMemory),
        Err(_) => Err(RecordFault::Broken),
    }
}

/// Takes the step of a payload, if it is that of a valid step that may follow.
pub(crate) fn take_payload<M: Machine>(
    alloc: Global,
    book: &mut M,
    payload: &[u8],
) -> Result<(), RecordFault>
    ensures taken { OnOk result (Takes (M.stands book.old) (M.stands book.new) payload.now) }
    ensures broken { result ≡ Err faults.Broken → (h : History) → M.stands book.old h → IsOfNoStep calendar h payload.now }
{
    match read(alloc, payload) {
        Ok(step) => take_step(book, step),
        Err(fault) => Err(fault),
    }
}
