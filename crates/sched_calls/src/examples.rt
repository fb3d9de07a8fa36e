ghost use Rattle.sched_calls.specs.ServedRows.{ServesRows};

/// What the definition of one request served says of requests that are written out: a creation, a second one
/// that is refused, and a sweep.
///
/// A theorem and no work: the call does nothing.
pub fn served_on_examples()
    ensures { ServesRows }
{}
