//! What follows from a plan, over every history. Each is a theorem on a function with no parameters and an empty body.
ghost use Rattle.write_plans.specs.PlanLaws.{CatchesUpLeast, EachHasItsCause, EnteredIsAccepted, KnownRepeats, LackingIsServed, OnePlan, ReadyFollows, ReadyIsAccepted, ReadyWhereItMay, RefusedIsServed, ZonedIsAccepted};

/// A write has one plan at a moment, and each plan is that of a write just where it has its cause. Where a step is ready it
/// is the Change of the write at the moment, which breaks no rule but, before the history's moment, that of moments; where
/// this Change may follow it is ready. An incarnation that is to catch up is the least that the write touches and that has
/// an occurrence without an entry.
pub fn plans_say_what_follows()
    ensures one { OnePlan }
    ensures causes { EachHasItsCause }
    ensures ready { ReadyFollows }
    ensures may { ReadyWhereItMay }
    ensures least { CatchesUpLeast }
{}

/// Each plan is part of how a write is served: what is known or refused is answered so at once, and nothing is added; a zone
/// that cannot be had is refused; behind the Zone step, and behind an Enter that was wanted, the write is accepted as it is
/// without; and a Change that is ready accepts it.
pub fn plans_are_served()
    ensures known { KnownRepeats }
    ensures refused { RefusedIsServed }
    ensures lacking { LackingIsServed }
    ensures zoned { ZonedIsAccepted }
    ensures entered { EnteredIsAccepted }
    ensures ready { ReadyIsAccepted }
{}
