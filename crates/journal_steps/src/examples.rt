ghost use Rattle.expressions.specs.Calendar.{Calendar};
ghost use Rattle.journal_steps.specs.Examples.{JournalsOnExamples};

/// What some short files are to a reader: journals, damaged ones and one that is none.
///
/// A theorem and no work: the call does nothing.
pub fn journals_on_examples()
    ensures { (c : Calendar) → JournalsOnExamples c }
{}
