ghost use Rattle.book_laws.specs.OutcomeLaws.{ClosesDecide, DecidedOnce, OutcomesStay};

/// An entry is decided at most once: its outcome stays whatever follows, and no two steps decide it. In a
/// legal history a Close finds an entry that is not decided, and decides it by its reason.
///
/// A theorem and no work: the call does nothing.
pub fn entries_are_decided_once()
    ensures stays { OutcomesStay }
    ensures once { DecidedOnce }
    ensures closed { ClosesDecide }
{}
