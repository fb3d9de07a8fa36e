ghost use Rattle.work_order.specs.DateLaws.{Completes, FinishedInTime, FirstOpenByDates, WorksByDates};

/// In a legal history an incarnation is completable at a moment exactly where the date since when it is finished has
/// come, and that date is no later than the last moment. The first of some incarnations with an unentered occurrence is
/// the first whose next instant has come. So the next work of a shard is found by these dates.
///
/// A theorem and no work: the call does nothing.
pub fn work_is_by_dates()
    ensures completes { Completes }
    ensures in_time { FinishedInTime }
    ensures opens { FirstOpenByDates }
    ensures works { WorksByDates }
{}
