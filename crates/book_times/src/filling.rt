//! A machine of many schedules.
ghost use Rattle.std.specs.Prelude.{IfOk};
ghost use Rattle.sched_plain.specs.Validity.{IsValid};

use anyhow::bail;
use sched_plain::Step;
use std::alloc::Global;
use step_machine::Machine;
use step_scripts::{offered, step_of};

/// When the schedules are created.
pub const CREATED: u64 = 60;

/// The name of the schedule that is created with this number.
pub fn name_of(alloc: Global, inc: u32) -> anyhow::Result<String> {
    Ok(format!(in alloc; "s{inc:05}")?)
}

/// The step that words say.
pub fn step_in(alloc: Global, words: &str) -> anyhow::Result<Step>
    ensures { IfOk result IsValid }
{
    match step_of(alloc, words)? {
        Some(step) => Ok(step),
        None => bail!("no step"),
    }
}

/// Takes a step.
pub fn taken<M: Machine>(machine: &mut M, step: Step) -> anyhow::Result<()>
    requires { IsValid step }
{
    match offered(machine, step) {
        Ok(()) => Ok(()),
        Err(_) => bail!("not to be taken"),
    }
}

/// Creates a schedule with this number that is not due.
fn create_quiet<M: Machine>(machine: &mut M, alloc: Global, inc: u32) -> anyhow::Result<()> {
    let name = name_of(alloc, inc)?;
    let words = format!(in alloc; "{CREATED} create {name}; at(2100-01-01T00:00:00)")?;
    let step = step_in(alloc, words.as_str())?;
    taken(machine, step)
}

/// Creates the one schedule that is due, each minute.
fn create_busy<M: Machine>(machine: &mut M, alloc: Global) -> anyhow::Result<()> {
    let words = format!(in alloc; "{CREATED} create busy; rate(1 minutes); retries 0")?;
    let step = step_in(alloc, words.as_str())?;
    taken(machine, step)
}

/// Creates so many schedules in an empty history, of which only the last one is due.
pub fn fill<M: Machine>(machine: &mut M, alloc: Global, schedules: u32) -> anyhow::Result<()> {
    let boot = step_in(alloc, "0 boot")?;
    taken(machine, boot)?;
    for inc in 1..schedules {
        create_quiet(machine, alloc, inc)?;
    }
    create_busy(machine, alloc)
}
