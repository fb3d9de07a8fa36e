ghost use Rattle.sweep_laws.specs.ValidLaws.{EntersValid, EnterWorkValid, ClosesValid, AttemptsValid, CompletesValid, SweptsValid, TakingsValid, ReleasesValid};

/// Over a legal history of valid steps each step that a sweep offers is valid, where the moment is one of those that there
/// are. Only a taking may not be: there must be a next epoch for it.
///
/// A theorem and no work: the call does nothing.
pub fn offered_steps_are_valid()
    ensures enters { EntersValid }
    ensures entered { EnterWorkValid }
    ensures closes { ClosesValid }
    ensures attempts { AttemptsValid }
    ensures completes { CompletesValid }
    ensures swept { SweptsValid }
    ensures takes { TakingsValid }
    ensures releases { ReleasesValid }
{}
