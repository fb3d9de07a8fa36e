ghost use Rattle.book_laws.specs.AttemptLaws.{AttemptsAreAllowed, BeginsDiffer, EntriesCount, NumbersCount};

/// In a legal history no two Begins have one occurrence and number. The numbers of an occurrence's
/// attempts count from 1 without a gap, its entry counts them, and there are no more than one and the
/// retries of its entry's policy: none where it has no entry.
///
/// A theorem and no work: the call does nothing.
pub fn attempts_are_numbered()
    ensures once { BeginsDiffer }
    ensures numbers { NumbersCount }
    ensures counted { EntriesCount }
    ensures allowed { AttemptsAreAllowed }
{}
