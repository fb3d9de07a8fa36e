ghost use Rattle.live_attempts.specs.CountLaws.{EndsPay, StepsAddTwo};

/// The steps of a history and its attempts in the air together grow by two at most with each step. An End that may follow
/// a legal history ends one of these attempts, so that with it they do not grow.
///
/// A theorem and no work: the call does nothing.
pub fn live_attempts_are_few()
    ensures adds { StepsAddTwo }
    ensures ends { EndsPay }
{}
