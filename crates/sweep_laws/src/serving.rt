ghost use Rattle.sweep_laws.specs.KeptLaws.{WorksKeep, CatchUpsKeep, CatchUpsCatchUp, SweepsKeep, ServesKeep};

/// What serving adds to a legal history of valid steps leaves one, for each request within its limits: working a shard,
/// catching up, a sweep, a write. Behind a catch-up none of its incarnations has an occurrence without an entry.
///
/// A theorem and no work: the call does nothing.
pub fn serving_keeps_histories_legal()
    ensures works { WorksKeep }
    ensures caught_up { CatchUpsKeep }
    ensures entered { CatchUpsCatchUp }
    ensures sweeps { SweepsKeep }
    ensures serves { ServesKeep }
{}
