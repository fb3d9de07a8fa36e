//! A step that is offered to a machine.
ghost use Rattle.std.specs.Prelude.{OnOk, OnErr};
ghost use Rattle.sched_plain.specs.History.{History, ◌upon◌};
ghost use Rattle.sched_plain.specs.Validity.{IsValid};

use sched_plain::Step;
use step_machine::{LegalFault, Machine};

/// Whether a step may follow; else the first rule that it breaks.
fn judged<M: Machine>(machine: &M, step: &Step) -> Result<(), LegalFault>
    requires { IsValid step.now }
    ensures { OnOk result (M.may machine.now step.now) }
{
    match machine.legal(step) {
        Ok(()) => Ok(()),
        Err(fault) => Err(fault),
    }
}

/// Makes room for a step that may follow, and takes it.
fn placed<M: Machine>(machine: &mut M, step: Step) -> Result<(), LegalFault>
    requires valid { IsValid step }
    requires may { M.may machine.old step }
    ensures taken { OnOk result ((h : History) → M.stands machine.old h → M.stands machine.new (step upon h)) }
    ensures stays { OnErr result ((h : History) → M.stands machine.old h → M.stands machine.new h) }
{
    if machine.reserve(&step).is_err() {
        return Err(LegalFault::OutOfMemory);
    }
    machine.apply(step);
    Ok(())
}

/// Takes a step where it may follow, and says else the first rule that it breaks. Then, and where memory is wanted, the machine
/// stands for what it stood for.
pub fn offered<M: Machine>(machine: &mut M, step: Step) -> Result<(), LegalFault>
    requires { IsValid step }
    ensures taken { OnOk result ((h : History) → M.stands machine.old h → M.stands machine.new (step upon h)) }
    ensures stays { OnErr result ((h : History) → M.stands machine.old h → M.stands machine.new h) }
{
    if let Err(fault) = judged(machine, &step) {
        return Err(fault);
    }
    placed(machine, step)
}
