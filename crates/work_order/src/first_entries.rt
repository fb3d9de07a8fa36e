ghost use Rattle.work_order.specs.EntryOrder.{DueIsFirst, LiveIsFirst};

/// In a legal history the first occurrence of a shard, by incarnation and then by instant, whose entry is to be closed
/// or begun gives the work that a search over all entries of the shard finds; so does the first whose attempt is in the
/// air, at every moment.
///
/// A theorem and no work: the call does nothing.
pub fn first_entries_are_found()
    ensures due { DueIsFirst }
    ensures live { LiveIsFirst }
{}
