ghost use Rattle.sweep_laws.specs.OneLaws.{WorksOneWay, CatchUpsOneWay, SweepsOneWay, ServesOneWay};

/// Given the words, the ends and the source of zones, serving a request adds one thing only, leaves the same words and
/// ends, and is answered in one way. So it is of working a shard, of catching up and of a sweep.
///
/// A theorem and no work: the call does nothing.
pub fn serving_has_one_result()
    ensures works { WorksOneWay }
    ensures caught_up { CatchUpsOneWay }
    ensures sweeps { SweepsOneWay }
    ensures serves { ServesOneWay }
{}
