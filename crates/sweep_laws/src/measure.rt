ghost use Rattle.sweep_laws.specs.LoadLaws.{EntersLessen, ClosesLessen, AttemptsLessen, CompletesLessen, LoadsAreSmall, CatchUpsLessen, UnenteredAreFew};

/// Whatever the work of a shard asks for leaves less of it, in every history: an Enter, a Close, an attempt begun and
/// ended, whatever came of it, a Complete. So working a shard comes to an end; in a legal history by fewer than 2 ^ 64 - 1
/// of them. While incarnations are caught up, each Enter leaves less to be entered, which is no more than there are
/// moments for each.
///
/// A theorem and no work: the call does nothing.
pub fn work_lessens()
    ensures entered { EntersLessen }
    ensures closed { ClosesLessen }
    ensures attempted { AttemptsLessen }
    ensures completed { CompletesLessen }
    ensures small { LoadsAreSmall }
    ensures caught_up { CatchUpsLessen }
    ensures few { UnenteredAreFew }
{}
