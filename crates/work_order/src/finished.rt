ghost use Rattle.work_order.specs.FinishedLaws.{CompletedIsNotFinished, FinishedStays};

/// In a legal history the date since when an incarnation is finished stays at every step but a Change that touches or
/// creates it, an Enter of it, an End or a Close of one of its entries, and its Complete. Behind the Complete there is
/// none.
///
/// A theorem and no work: the call does nothing.
pub fn steps_change_the_finished_date()
    ensures stays { FinishedStays }
    ensures completed { CompletedIsNotFinished }
{}
