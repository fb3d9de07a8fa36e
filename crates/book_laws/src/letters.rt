ghost use Rattle.book_laws.specs.LetterLaws.{LettersAreOwed};

/// In a legal history the letters of a queue are, one for one, the entries that ended with Final or were
/// closed and whose content names the queue: about each occurrence a queue has just one letter, with the
/// outcome, where its entry is such a one, and otherwise none.
///
/// A theorem and no work: the call does nothing.
pub fn letters_are_owed()
    ensures { LettersAreOwed }
{}
