ghost use Rattle.sched_plain.specs.BaseRows.{FoldedHours, FoldedLetter};
ghost use Rattle.sched_plain.specs.ExampleRows.{SweepsAreLegal, BrokenSteps, Finishing, Standings, LettersAndMarks, Occurring, Reported, Attempting};

/// What the definitions say of histories that are written out, so that a reader can try them: whole
/// sweeps that are legal, steps that may not follow with the first rule that each breaks, standings
/// after retries, letters and marks, occurrences, reports and attempts; and what they say of two
/// histories that begin with a base.
///
/// A theorem and no work: the call does nothing.
pub fn definitions_on_examples()
    ensures sweeps { SweepsAreLegal }
    ensures broken { BrokenSteps }
    ensures finishing { Finishing }
    ensures standings { Standings }
    ensures letters { LettersAndMarks }
    ensures occurrences { Occurring }
    ensures reports { Reported }
    ensures attempts { Attempting }
    ensures folded { FoldedHours }
    ensures kept { FoldedLetter }
{}
