ghost use Rattle.expressions.specs.SpellingRows.{TextsSpell, CanonicalTexts, FirstFaults, NoFaults};

/// What the definitions say of texts that are written out, so that a reader can try them: what they spell, the canonical
/// spelling of that, and the first fault, with its place, of texts that spell nothing.
///
/// A theorem and no work: the call does nothing.
pub fn spellings_on_examples()
    ensures spelled { TextsSpell }
    ensures canonical { CanonicalTexts }
    ensures faults { FirstFaults }
    ensures none { NoFaults }
{}
