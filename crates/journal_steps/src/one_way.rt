ghost use Rattle.journal_steps.specs.Laws.{FilesAreReadInOneWay, HistoriesHaveOneJournal};

/// What a file is to a reader of steps is one thing: that it is no journal, that it is damaged at one gate, or that it is the
/// journal of one history. And the journals of two histories that begin with the same records begin with the same steps.
///
/// A theorem and no work: the call does nothing.
pub fn files_are_read_in_one_way()
    ensures one { FilesAreReadInOneWay }
    ensures records { HistoriesHaveOneJournal }
{}
