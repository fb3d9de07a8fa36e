ghost use Rattle.book_completions.specs.Finding.{CompletesFind};

/// A Complete that may follow finds its schedule living, and the moment of the parts no later than its own, which is none
/// past the last there is.
///
/// A theorem and no work: the call does nothing.
pub fn completes_find_their_parts()
    ensures { CompletesFind }
{}
