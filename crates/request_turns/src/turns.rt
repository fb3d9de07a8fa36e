ghost use Rattle.request_turns.specs.Turns.{MembersAreFew, PairsAreFew};

/// A query has at most as many pairs as bytes, so that a loop over its pairs takes at most a turn a byte.
///
/// A theorem and no work: the call does nothing.
pub fn pairs_are_few()
    ensures { PairsAreFew }
{}

/// The object that a body is, and the objects in it, have together at most as many members as the body has bytes, so that
/// loops over their members take together at most a turn a byte.
///
/// A theorem and no work: the call does nothing.
pub fn members_are_few()
    ensures { MembersAreFew }
{}
