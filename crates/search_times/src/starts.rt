//! Where the searches start, and answers as numbers.
ghost use Rattle.cron_search.specs.CivilTime.{IsCivilSecond};

use expressions::Civil;

/// The start of the k-th search: 28 days of 12 months of 20 years from 1970 on, at any minute.
pub fn start(k: u32) -> Civil
    ensures { IsCivilSecond result }
{
    Civil {
        year: 1970 + (k % 20) as u16,
        month: 1 + (k % 12) as u8,
        day: 1 + (k % 28) as u8,
        hour: (k % 24) as u8,
        minute: (k % 59) as u8,
        second: 0,
    }
}

/// A number for each minute, later ones higher.
pub fn number_of(d: Civil) -> u64 {
    let days = (d.year as u64 * 12 + d.month as u64) * 31 + d.day as u64;
    (days * 24 + d.hour as u64) * 60 + d.minute as u64
}
