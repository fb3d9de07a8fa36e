ghost use Rattle.zone_occ.specs.FirstInstants.{IsValidSearchable};

/// What a text spells can be searched: a valid expression, as one that was read, meets what
/// `next_after` and `occurrences` ask of theirs.
///
/// A theorem and no work: the call does nothing.
pub fn valid_is_searchable()
    ensures { IsValidSearchable }
{}
