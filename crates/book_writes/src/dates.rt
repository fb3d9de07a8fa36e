//! The dates of what a write creates, and of what it gives a content.
ghost use Rattle.std.specs.Prelude.{◌≡◌, ◌≤◌, ◌<◌, ◌++◌, ◌∷◌, [], Some, None, List, false, length};
ghost use Rattle.plain_words.specs.declared.limits.TheConstants.{LAST_MOMENT, MOST_INCARNATIONS};
ghost use Rattle.sched_plain.specs.Ledger.{LedgerCall};
ghost use Rattle.sched_plain.specs.Validity.{IsContent};
ghost use Rattle.zone_occ.specs.ZoneText.{utc as built_in};
ghost use Rattle.ledger_rows.specs.State.{Stands as LedgerStands};
ghost use Rattle.date_table.specs.Dates.{IsDate, date_at};
ghost use Rattle.work_order.specs.Finished.{finished_with};
ghost use Rattle.book_writes.specs.Touching.{is_touched, SetsWhere};
ghost use Rattle.book_writes.specs.Dating.{IsFirst, IsRenewed, IsKnown, IsBegun, finished_now, kept_date};

use crate::zones::first_instant;
use date_table::DateTable;
use ledger_rows::Ledger;
use sched_plain::{Moment, Schedule, Write};
use sched_rows::Rows;
use zone_occ::Zone;
use zone_shelf::ZoneShelf;

/// Since when a new schedule is finished: at once, where nothing is to come and it is to be deleted then.
fn finished_at_birth(content: &Schedule, next: Option<u64>) -> Option<u64>
    ensures { result ≡ finished_with (Some content.now) next false None }
{
    if content.enabled && content.delete_after && next.is_none() {
        Some(0)
    } else {
        None
    }
}

/// The dates of a schedule that is created at a moment.
pub fn begin_dates(
    zones: &ZoneShelf,
    utc: &Zone,
    content: &Schedule,
    at: Moment,
    next: &mut DateTable,
    finished: &mut DateTable,
)
    requires utc { utc.now ≡ built_in }
    requires valid { IsContent content.now }
    requires known { IsKnown zones.now content.now }
    requires room { 1 ≤ next.old.room }
    requires more { 1 ≤ finished.old.room }
    requires few { length next.old.dates < MOST_INCARNATIONS }
    requires both { length finished.old.dates ≡ length next.old.dates }
    ensures { IsBegun zones.now content.now at.0 next.old.dates next.new.dates finished.old.dates finished.new.dates }
{
    let first = first_instant(zones, utc, content, at, at.0);
    next.push(first);
    finished.push(finished_at_birth(content, first));
}

/// The first instant of a content that a schedule is given at a moment, behind it.
fn renewed(
    rows: &Rows,
    zones: &ZoneShelf,
    utc: &Zone,
    content: &Schedule,
    at: Moment,
    inc: u32,
) -> Option<u64>
    requires utc { utc.now ≡ built_in }
    requires valid { IsContent content.now }
    requires known { IsKnown zones.now content.now }
    requires last { at.0 ≤ LAST_MOMENT }
    ensures date { IsDate result }
    ensures first { IsRenewed zones.now rows.now.rows content.now at.0 inc result }
{
    match rows.row(inc) {
        Some(row) => first_instant(zones, utc, content, row.created(), at.0 + 1),
        None => None,
    }
}

/// Gives each incarnation that a write touches the first instant of a content behind a moment.
pub fn renew_next(
    rows: &Rows,
    write: &Write,
    zones: &ZoneShelf,
    utc: &Zone,
    content: &Schedule,
    at: Moment,
    next: &mut DateTable,
)
    requires utc { utc.now ≡ built_in }
    requires valid { IsContent content.now }
    requires known { IsKnown zones.now content.now }
    requires last { at.0 ≤ LAST_MOMENT }
    requires enough { length rows.now.rows ≤ length next.old.dates }
    ensures dates { SetsWhere (is_touched rows.now.rows write.now) (IsRenewed zones.now rows.now.rows content.now at.0) next.old.dates next.new.dates }
    ensures room { next.new.room ≡ next.old.room }
{
    let mut after = 0;
    while let Some(inc) = rows.next_touched(write, after) {
        let date = renewed(rows, zones, utc, content, at, inc);
        next.set(inc, date);
        after = inc;
    }
}

/// Since when a schedule with a content and a next instant is finished.
fn finished_of(ledger: &Ledger, content: &Schedule, inc: u32, next: Option<u64>) -> Option<u64>
    ensures { (calls : List LedgerCall) → LedgerStands ledger.now calls → result ≡ finished_now calls content.now inc next }
{
    let done = next.is_none() && ledger.undecided(inc) == 0;
    if content.enabled && content.delete_after && done {
        Some(ledger.last_entered(inc).unwrap_or(0))
    } else {
        None
    }
}

/// The date that a table keeps: the greatest number is none.
fn kept_date(date: Option<u64>) -> Option<u64>
    ensures same { result ≡ kept_date date }
    ensures date { IsDate result }
{
    match date {
        Some(date) => if date < u64::MAX { Some(date) } else { None },
        None => None,
    }
}

/// Gives each incarnation that a write touches the date since when it is finished with a content, by its next instant.
pub fn renew_finished(
    rows: &Rows,
    write: &Write,
    content: &Schedule,
    ledger: &Ledger,
    next: &DateTable,
    finished: &mut DateTable,
)
    requires { length rows.now.rows ≤ length finished.old.dates }
    ensures dates { (calls : List LedgerCall) → LedgerStands ledger.now calls → SetsWhere (is_touched rows.now.rows write.now) (λ inc date. date ≡ kept_date (finished_now calls content.now inc (date_at next.now.dates inc))) finished.old.dates finished.new.dates }
    ensures long { length finished.new.dates ≡ length finished.old.dates }
    ensures room { finished.new.room ≡ finished.old.room }
{
    let mut after = 0;
    while let Some(inc) = rows.next_touched(write, after) {
        let date = kept_date(finished_of(ledger, content, inc, next.get(inc)));
        finished.set(inc, date);
        after = inc;
    }
}
