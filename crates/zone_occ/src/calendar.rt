ghost use Rattle.zone_occ.specs.ZoneCalendar.{zone_calendar, HasAtsInUtc, HasZones};

/// What the calendar of real time zones says: an `at` in UTC has its civil second as its one instant,
/// and under bytes that are a zone the instants are those of the zone.
///
/// A theorem and no work: the call does nothing.
pub fn calendar_of_zones()
    ensures utc { HasAtsInUtc zone_calendar }
    ensures zones { HasZones zone_calendar }
{}
