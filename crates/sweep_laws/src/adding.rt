ghost use Rattle.sweep_laws.specs.AddLaws.{WorksAdd, CatchUpsAdd, SweepsAdd, ServesAdd};

/// Serving only adds to a history, and takes ends from the front, one for each End that it adds.
///
/// A theorem and no work: the call does nothing.
pub fn serving_only_adds()
    ensures works { WorksAdd }
    ensures caught_up { CatchUpsAdd }
    ensures sweeps { SweepsAdd }
    ensures serves { ServesAdd }
{}
