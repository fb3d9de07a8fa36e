//! Zones and expressions that the tests share.
ghost use Rattle.cron_search.specs.CivilTime.{IsCivilSecond};
ghost use Rattle.zone_occ.specs.FirstInstants.{IsSearchable};

use expressions::{Civil, CronSets, DayRule, Expr, Unit};
use jiff_core::civil;
use std::process::Abort;
use zone_occ::Zone;

/// The rule of New York.
pub const NEW_YORK: &[u8] = b"EST5EDT,M3.2.0,M11.1.0";

/// The rule of Lord Howe, whose clocks change by half an hour.
pub const LORD_HOWE: &[u8] = b"<+1030>-10:30<+11>-11,M10.1.0,M4.1.0";

/// A zone file with a gap at 1000000000 and a fold at 1100000000, and a rule from then on.
pub const SMALL: &[u8; 160] = b"TZif2\x00\x00\x00\x00\x00\x00\x00\x00\x00\x00\x00\x00\x00\x00\x00\
\x00\x00\x00\x00\x00\x00\x00\x00\x00\x00\x00\x00\x00\x00\x00\x00\x00\x00\x00\x01\x00\x00\x00\x01\
\x00\x00\x00\x00\x00\x00\x00TZif2\x00\x00\x00\x00\x00\x00\x00\x00\x00\x00\x00\x00\x00\x00\x00\
\x00\x00\x00\x00\x00\x00\x00\x00\x00\x00\x00\x00\x00\x00\x00\x02\x00\x00\x00\x02\x00\x00\x00\x08\
\x00\x00\x00\x00;\x9a\xca\x00\x00\x00\x00\x00A\x90\xab\x00\x01\x00\x00\x00\x0e\x10\x00\x00\x00\x00\
\x1c\x20\x01\x04AAA\x00BBB\x00\x0aAAA-1BBB,M3.5.0,M10.5.0/3\x0a";

/// `* * * * ? *`
pub const EVERY_MINUTE: CronSets = CronSets {
    minutes: (1 << 60) - 1,
    hours: (1 << 24) - 1,
    days: DayRule::OfMonth(0xffff_fffe),
    months: 0b1_1111_1111_1110,
    years_low: u128::MAX,
    years_high: (1 << 102) - 1,
};

/// `30 1 * * ? *`
pub const DAILY_AT_1_30: CronSets = CronSets {
    minutes: 1 << 30,
    hours: 1 << 1,
    ..EVERY_MINUTE
};

/// `30 2 * * ? *`
pub const DAILY_AT_2_30: CronSets = CronSets {
    hours: 1 << 2,
    ..DAILY_AT_1_30
};

/// `45 1 * * ? *`
pub const DAILY_AT_1_45: CronSets = CronSets {
    minutes: 1 << 45,
    ..DAILY_AT_1_30
};

/// `0 9 30 2 ? *`, which no minute fits.
pub const IN_NO_YEAR: CronSets = CronSets {
    minutes: 1,
    hours: 1 << 9,
    days: DayRule::OfMonth(1 << 30),
    months: 1 << 2,
    ..EVERY_MINUTE
};

/// `rate(1 hour)`
pub const HOURLY: Expr = Expr::Rate {
    count: 1,
    unit: Unit::Hour,
};

/// `rate(4294967295 days)`
pub const LONGEST_RATE: Expr = Expr::Rate {
    count: u32::MAX,
    unit: Unit::Day,
};

/// A date, and a time of day.
pub type Clock = ((u16, u8, u8), (u8, u8, u8));

/// The civil second that a clock shows.
pub const fn civil(clock: Clock) -> Civil {
    let ((year, month, day), (hour, minute, second)) = clock;
    Civil {
        year,
        month,
        day,
        hour,
        minute,
        second,
    }
}

/// The test ends where the calendar has no such second from 1970 to 2199.
pub fn assert_civil(rt: &impl Abort, d: Civil)
    ensures { IsCivilSecond d }
{
    assert!(rt; d.year >= 1970 && d.year <= 2199 && d.month >= 1 && d.month <= 12);
    assert!(rt; d.day >= 1 && d.day <= civil::days_in_month(d.year as i16, d.month));
    assert!(rt; d.hour <= 23 && d.minute <= 59 && d.second <= 59);
}

/// The test ends where no search may be asked for the expression.
pub fn assert_searchable(rt: &impl Abort, expr: &Expr)
    ensures { IsSearchable expr.now }
{
    match expr {
        Expr::At(d) => assert_civil(rt, *d),
        Expr::Rate { count, .. } => assert!(rt; *count >= 1),
        Expr::Cron(_) => {}
    }
}

/// The zone of these bytes; the test ends where they are none.
pub fn zone_of<R: Abort + AllocGlobal>(rt: &R, bytes: &[u8]) -> Zone {
    Zone::read(rt.alloc(), bytes).expect(rt, "a zone")
}
