//! What a write makes of the ledger and of the dates.
ghost use Rattle.std.specs.Prelude.{◌≡◌, ◌≤◌, ◌<◌, length};
ghost use Rattle.plain_words.specs.declared.limits.TheConstants.{LAST_MOMENT, MOST_INCARNATIONS};
ghost use Rattle.sched_plain.specs.Validity.{IsContent, IsWrite};
ghost use Rattle.zone_occ.specs.ZoneText.{utc as built_in};
ghost use Rattle.book_writes.specs.Dating.{IsKnown};
ghost use Rattle.book_writes.specs.Redating.{HasDateRoom, HasZone, IsDeleted, IsRedated, IsUpdated};

use crate::dates::{begin_dates, renew_finished, renew_next};
use crate::touched::{cancel_touched, end_dates};
use date_table::DateTable;
use ledger_rows::Ledger;
use sched_plain::{Moment, Schedule, Write};
use sched_rows::Rows;
use zone_occ::Zone;
use zone_shelf::ZoneShelf;

/// Ends what a write touches: its entries are cancelled, and it has no dates.
fn end_touched(
    rows: &Rows,
    write: &Write,
    ledger: &mut Ledger,
    next: &mut DateTable,
    finished: &mut DateTable,
)
    requires next { length next.old.dates ≡ length rows.now.rows }
    requires finished { length finished.old.dates ≡ length rows.now.rows }
    ensures { IsDeleted rows.now.rows write.now (record { ledger = ledger.old; next = next.old.dates; finished = finished.old.dates }) (record { ledger = ledger.new; next = next.new.dates; finished = finished.new.dates }) }
{
    cancel_touched(rows, write, ledger);
    end_dates(rows, write, next);
    end_dates(rows, write, finished);
}

/// Gives what a write touches the dates of a content.
fn renew_touched(
    rows: &Rows,
    zones: &ZoneShelf,
    utc: &Zone,
    write: &Write,
    content: &Schedule,
    at: Moment,
    ledger: &Ledger,
    next: &mut DateTable,
    finished: &mut DateTable,
)
    requires utc { utc.now ≡ built_in }
    requires valid { IsContent content.now }
    requires known { IsKnown zones.now content.now }
    requires last { at.0 ≤ LAST_MOMENT }
    requires next { length next.old.dates ≡ length rows.now.rows }
    requires finished { length finished.old.dates ≡ length rows.now.rows }
    ensures { IsUpdated zones.now rows.now.rows at.0 write.now content.now (record { ledger = ledger.now; next = next.old.dates; finished = finished.old.dates }) (record { ledger = ledger.now; next = next.new.dates; finished = finished.new.dates }) }
{
    renew_next(rows, write, zones, utc, content, at, next);
    renew_finished(rows, write, content, ledger, next, finished);
}

/// Makes of the ledger and of the dates what a write makes of them, before it changes the rows.
pub fn redate(
    rows: &Rows,
    zones: &ZoneShelf,
    utc: &Zone,
    write: &Write,
    at: Moment,
    ledger: &mut Ledger,
    next: &mut DateTable,
    finished: &mut DateTable,
)
    requires utc { utc.now ≡ built_in }
    requires valid { IsWrite write.now }
    requires known { HasZone zones.now write.now }
    requires last { at.0 ≤ LAST_MOMENT }
    requires next { length next.old.dates ≡ length rows.now.rows }
    requires finished { length finished.old.dates ≡ length rows.now.rows }
    requires room { HasDateRoom write.now (length rows.now.rows) next.old.room finished.old.room }
    ensures { IsRedated zones.now rows.now.rows at.0 write.now (record { ledger = ledger.old; next = next.old.dates; finished = finished.old.dates }) (record { ledger = ledger.new; next = next.new.dates; finished = finished.new.dates }) }
{
    match write {
        Write::CreateSchedule { content, .. } => {
            begin_dates(zones, utc, content, at, next, finished)
        }
        Write::UpdateSchedule { content, .. } => {
            renew_touched(rows, zones, utc, write, content, at, ledger, next, finished)
        }
        Write::DeleteSchedule { .. } => end_touched(rows, write, ledger, next, finished),
        Write::CreateGroup { .. } => end_touched(rows, write, ledger, next, finished),
        Write::DeleteGroup { .. } => end_touched(rows, write, ledger, next, finished),
    }
}
