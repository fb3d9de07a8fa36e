ghost use Rattle.live_attempts.specs.AirLaws.{LiveAreAloft};

/// In a legal history the attempt of each entry whose last attempt is live is in the air.
///
/// A theorem and no work: the call does nothing.
pub fn live_attempts_are_aloft()
    ensures { LiveAreAloft }
{}
