ghost use Rattle.book_laws.specs.CountLaws.{CountsAddUp, EntriesAreCounted};

/// The counts of a history at any moment add up: the number of entries is the sum of the nine numbers
/// from `done` to `exhausted`, and it is the number of pairs that were entered of all incarnations.
///
/// A theorem and no work: the call does nothing.
pub fn counts_add_up()
    ensures sum { CountsAddUp }
    ensures entries { EntriesAreCounted }
{}
