ghost use Rattle.sweep_laws.specs.HoldLaws.{BootsFree, LaterFree, ServesFree, ServesEpochs};

/// Serving leaves no shard held by another worker than worker 0 where none was: behind a start none is, and none is later.
/// A request takes one epoch of each shard, if it is a sweep, and else none.
///
/// A theorem and no work: the call does nothing.
pub fn serving_holds_alone()
    ensures started { BootsFree }
    ensures later { LaterFree }
    ensures free { ServesFree }
    ensures epochs { ServesEpochs }
{}
