ghost use Rattle.work_order.specs.LivingLaws.{OnlyLivingAct, ZonesAreKnown};

/// In a legal history only a living schedule has a next instant, and the zone of its current content is UTC, or one
/// whose bytes are known.
///
/// A theorem and no work: the call does nothing.
pub fn only_living_schedules_act()
    ensures acts { OnlyLivingAct }
    ensures zones { ZonesAreKnown }
{}
