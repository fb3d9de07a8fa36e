/// A civil date and time of day, as a clock on a wall shows it; months and days count from 1.
#[derive(Debug, Clone, Copy, PartialEq, Eq)]
pub struct Civil {
    pub year: u16,
    pub month: u8,
    pub day: u8,
    pub hour: u8,
    pub minute: u8,
    pub second: u8,
}

/// Which days of a month a cron expression picks. Day 1 of the week is Sunday and day 7 is Saturday.
#[derive(Debug, Clone, Copy, PartialEq, Eq)]
pub enum DayRule {
    /// The days of the month whose bit is set: bit v is day v.
    OfMonth(u32),
    /// The last day of the month.
    LastDay,
    /// The day from Monday to Friday that is closest to this day and in its month; none where the
    /// month has no such day.
    NearWeekday(u8),
    /// The days of the week whose bit is set: bit v is day v.
    OfWeek(u8),
    /// The last such day of the week in the month.
    LastOf(u8),
    /// The `nth` such day of the week in the month, counted from 1; none where there are fewer.
    Nth { day: u8, nth: u8 },
}

/// The sets of a cron expression: bit v of a field's set is the value v, and in the years bit i of
/// `years_low`, then of `years_high`, is the year 1970 + i, 1970 + 128 + i.
#[derive(Debug, Clone, Copy, PartialEq, Eq)]
pub struct CronSets {
    pub minutes: u64,
    pub hours: u32,
    pub days: DayRule,
    pub months: u16,
    pub years_low: u128,
    pub years_high: u128,
}

/// The unit of a rate.
#[derive(Debug, Clone, Copy, PartialEq, Eq)]
pub enum Unit {
    Minute,
    Hour,
    Day,
}

/// A schedule's expression (EventBridge Scheduler User Guide, "Schedule types").
#[derive(Debug, Clone, Copy, PartialEq, Eq)]
pub enum Expr {
    /// Once, at this civil time in the schedule's zone.
    At(Civil),
    /// Every `count` units from an anchor on; a day is 86400 seconds.
    Rate { count: u32, unit: Unit },
    /// At each civil minute, in the schedule's zone, that fits the sets.
    Cron(CronSets),
}
