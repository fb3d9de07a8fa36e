ghost use Rattle.book_laws.specs.SweepLaws.{SweptLeavesNothing};

/// A Swept of a legal history leaves nothing to do at its moment in its shard: no occurrence without an
/// entry, no entry that is due, exhausted or live, and no schedule that is to be removed.
///
/// A theorem and no work: the call does nothing.
pub fn swept_leaves_nothing()
    ensures { SweptLeavesNothing }
{}
