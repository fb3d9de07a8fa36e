ghost use Rattle.sweep_laws.specs.RestLaws.{TakingsRest, EntersRest, ClosesRest, AttemptsRest, CompletesRest, RestingNeverWaits};

/// A taking loses each attempt of its shard that is in the air, and no step of the sweep's work leaves one there. Where none
/// is, no attempt is waited for.
///
/// A theorem and no work: the call does nothing.
pub fn taken_shards_wait_for_nothing()
    ensures taken { TakingsRest }
    ensures entered { EntersRest }
    ensures closed { ClosesRest }
    ensures attempted { AttemptsRest }
    ensures completed { CompletesRest }
    ensures never { RestingNeverWaits }
{}
