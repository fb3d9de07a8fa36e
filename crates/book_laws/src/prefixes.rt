ghost use Rattle.book_laws.specs.PrefixLaws.{FirstsArePrefixes, PrefixesAreLegal};

/// Each beginning of a legal history is legal, and the first steps of a history, however many, are a
/// beginning of it. So what the other laws say of the newest step holds of each step at its place.
///
/// A theorem and no work: the call does nothing.
pub fn prefixes_are_legal()
    ensures legal { PrefixesAreLegal }
    ensures firsts { FirstsArePrefixes }
{}
