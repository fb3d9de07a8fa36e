//! The next instant behind what is entered.
ghost use Rattle.std.specs.Prelude.{◌≡◌, ◌≤◌, All, length};
ghost use Rattle.plain_words.specs.Lists.{last};
ghost use Rattle.sched_plain.specs.Validity.{IsPair};
ghost use Rattle.zone_occ.specs.ZoneText.{utc as built_in};
ghost use Rattle.date_table.specs.Dates.{IsDate};
ghost use Rattle.book_parts.specs.Contents.{AreContents, HaveContents};
ghost use Rattle.book_enters.specs.Behind.{IsBehind, IsBehindRow, GoOn};

use book_writes::first_instant;
use date_table::DateTable;
use sched_plain::{LAST_MOMENT, Pair};
use sched_rows::{KeptRow, Rows};
use zone_occ::Zone;
use zone_shelf::ZoneShelf;

/// The first instant behind one at which the current content of a row acts: none where it has none.
fn row_behind(row: &KeptRow, zones: &ZoneShelf, utc: &Zone, instant: u64) -> Option<u64>
    requires utc { utc.now ≡ built_in }
    requires contents { AreContents row.now.row.revisions }
    requires instant { instant ≤ LAST_MOMENT }
    ensures date { IsDate result }
    ensures first { IsBehindRow zones.now row.now.row instant result }
{
    match row.current() {
        Some(content) => first_instant(zones, utc, content, row.created(), instant + 1),
        None => None,
    }
}

/// The same of an incarnation.
fn next_behind(rows: &Rows, zones: &ZoneShelf, utc: &Zone, inc: u32, instant: u64) -> Option<u64>
    requires utc { utc.now ≡ built_in }
    requires contents { HaveContents rows.now.rows }
    requires instant { instant ≤ LAST_MOMENT }
    ensures date { IsDate result }
    ensures first { IsBehind zones.now rows.now.rows inc instant result }
{
    match rows.row(inc) {
        Some(row) => row_behind(row, zones, utc, instant),
        None => None,
    }
}

/// Writes down anew the next instant of an incarnation behind these pairs; it stays where there are none.
pub fn go_on(
    rows: &Rows,
    zones: &ZoneShelf,
    utc: &Zone,
    inc: u32,
    pairs: &[Pair],
    next: &mut DateTable,
)
    requires utc { utc.now ≡ built_in }
    requires contents { HaveContents rows.now.rows }
    requires each { All IsPair pairs.now }
    requires low { 1 ≤ inc }
    requires within { inc ≤ length next.old.dates }
    ensures long { length next.new.dates ≡ length next.old.dates }
    ensures dates { GoOn zones.now rows.now.rows inc (last pairs.now) next.old.dates next.new.dates }
{
    if let Some(pair) = pairs.last() {
        let date = next_behind(rows, zones, utc, inc, pair.instant);
        next.set(inc, date);
    }
}
