ghost use Rattle.book_laws.specs.MomentLaws.{MomentsNeverFall};

/// In a legal history no step has a moment below that of a step before it.
///
/// A theorem and no work: the call does nothing.
pub fn moments_never_fall()
    ensures { MomentsNeverFall }
{}
