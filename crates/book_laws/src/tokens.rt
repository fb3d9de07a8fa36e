ghost use Rattle.book_laws.specs.TokenLaws.{TokensStandOnce};

/// In a legal history a client token stands in at most one Change.
///
/// A theorem and no work: the call does nothing.
pub fn tokens_stand_once()
    ensures { TokensStandOnce }
{}
