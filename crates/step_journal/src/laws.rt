ghost use Rattle.step_journal.specs.Laws.{EndsAreShort};

/// The record of an End, with its gate, has as many bytes as are kept for it.
///
/// A theorem and no work: the call does nothing.
pub fn ends_are_short()
    ensures { EndsAreShort }
{}
