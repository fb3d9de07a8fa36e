ghost use Rattle.book_enters.specs.Finding.{EntersFind};

/// Where sound parts stand for a history that a valid Enter may follow, they hold what `enter` wants of them, but for room:
/// the moment does not fall, the incarnation is there, and the pairs rise and come behind its entries.
///
/// A theorem and no work: the call does nothing.
pub fn enters_find_their_parts()
    ensures { EntersFind }
{}
