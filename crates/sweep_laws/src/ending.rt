ghost use Rattle.sweep_laws.specs.EndLaws.{WorkEnds, CatchUpsEnd, SweepsEnd, RestsEnd, WritesAreAccepted};

/// Working a shard in which no attempt is in the air comes to an end, and so do catching up, a sweep of any shards, what
/// is left of a sweep, and serving a write that may be accepted: for any rows of words and of ends, with just those that
/// it takes.
///
/// A theorem and no work: the call does nothing.
pub fn serving_ends()
    ensures works { WorkEnds }
    ensures caught_up { CatchUpsEnd }
    ensures sweeps { SweepsEnd }
    ensures rest { RestsEnd }
    ensures accepted { WritesAreAccepted }
{}
