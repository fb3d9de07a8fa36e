ghost use Rattle.std.specs.Prelude.{◌≡◌};
ghost use Rattle.sched_plain.specs.Moments.{at_of};
ghost use Rattle.sched_plain.specs.Rules.{moment_rule};

use sched_plain::{Moment, Step, Why};

/// The moment that a step carries.
pub fn at_of(step: &Step) -> Moment
    ensures { result.0 ≡ at_of step.now }
{
    match step {
        Step::Boot { at }
        | Step::Zone { at, .. }
        | Step::Change { at, .. }
        | Step::Enter { at, .. }
        | Step::Lease { at, .. }
        | Step::Release { at, .. }
        | Step::Begin { at, .. }
        | Step::End { at, .. }
        | Step::Close { at, .. }
        | Step::Complete { at, .. }
        | Step::Swept { at, .. } => *at,
    }
}

/// `MomentBack` exactly where the step's moment is below the last one, or a Boot's is not that one.
pub fn moment_broken(last: Moment, step: &Step) -> Option<Why>
    ensures { result ≡ moment_rule last.0 step.now }
{
    let broken = match step {
        Step::Boot { at } => at.0 != last.0,
        _ => at_of(step).0 < last.0,
    };
    if broken {
        Some(Why::MomentBack { last })
    } else {
        None
    }
}
