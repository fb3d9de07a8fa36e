ghost use Rattle.sched_top.specs.Keeping.{HoldsOfEach};

use book_laws::{
    attempts_are_numbered, counts_add_up, entries_are_the_occurrences, letters_are_owed,
    prefixes_are_legal, swept_leaves_nothing, tokens_stand_once,
};

/// What a run promises of its history holds of every legal history.
///
/// A theorem and no work: the call does nothing.
pub(crate) fn legal_histories_hold()
    ensures { HoldsOfEach }
{
    entries_are_the_occurrences();
    attempts_are_numbered();
    prefixes_are_legal();
    swept_leaves_nothing();
    counts_add_up();
    letters_are_owed();
    tokens_stand_once();
}
