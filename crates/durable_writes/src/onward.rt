//! What is next for a write that no rule stops.
ghost use Rattle.std.specs.Prelude.{◌≡◌, IfOk};
ghost use Rattle.sched_plain.specs.History.{History};
ghost use Rattle.book_parts.specs.Stands.{calendar};
ghost use Rattle.write_plans.specs.Planning.{IsPlanned};
ghost use Rattle.durable_writes.specs.Leading.{IsUnhindered, plan_onward};

use sched_plain::{Moment, Step, Write};
use std::alloc::AllocError;
use step_machine::Machine;
use write_plans::Plan;

/// What is next for a write that no rule stops.
#[derive(Debug, Drop)]
pub(crate) enum Next {
    /// An incarnation that it touches has occurrences without an entry.
    CatchUp { inc: u32 },
    /// Its Change.
    Ready(Step),
}

/// What is next for a write that no rule stops. It fails only for want of memory.
pub(crate) fn next_of<M: Machine>(
    machine: &M,
    at: Moment,
    write: &Write,
) -> Result<Next, AllocError>
    requires lives { (h : History) × M.stands machine.now h × IsUnhindered write.now h }
    ensures { IfOk result (λ next. (h : History) → M.stands machine.now h → IsPlanned calendar h at.0 write.now (plan_onward next)) }
{
    match machine.plan_write(write, at)? {
        Plan::CatchUp { inc } => Ok(Next::CatchUp { inc }),
        Plan::Ready(step) => Ok(Next::Ready(step)),
        _ => unreachable!(),
    }
}
