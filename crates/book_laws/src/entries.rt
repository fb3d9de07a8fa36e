ghost use Rattle.book_laws.specs.EntryLaws.{
  EntriesAreOccurrences,
  EntriesOccur,
  EntriesRise,
  OccurrencesAreEntered,
  UnenteredAreTheRest,
};

/// In a legal history each entry of an incarnation is of an occurrence up to its mark, and each
/// occurrence above its floor and up to its mark has an entry. Their instants rise strictly, so that
/// each occurrence stands once. Where there is no floor the instants of the entries are exactly the
/// occurrences up to the mark, or none where there is no mark. What is unentered up to a moment are the
/// occurrences up to it from the first moment on that the entries do not reach.
///
/// A theorem and no work: the call does nothing.
pub fn entries_are_the_occurrences()
    ensures occur { EntriesOccur }
    ensures entered { OccurrencesAreEntered }
    ensures exact { EntriesAreOccurrences }
    ensures once { EntriesRise }
    ensures rest { UnenteredAreTheRest }
{}
