ghost use Rattle.work_order.specs.RevisionLaws.{ChangesOpenNothing, EntriesFollow};

/// In a legal history the policy of each entry is that of the revision that covers its instant, and its chosen moment
/// lies in that revision's window.
///
/// A theorem and no work: the call does nothing.
pub fn entries_follow_revisions()
    ensures { EntriesFollow }
{}

/// A Change makes nothing unentered: of an incarnation that was there, what is unentered up to the Change's moment is
/// the same before and behind it, and of one that it touches nothing is.
///
/// A theorem and no work: the call does nothing.
pub fn changes_open_nothing()
    ensures { ChangesOpenNothing }
{}
