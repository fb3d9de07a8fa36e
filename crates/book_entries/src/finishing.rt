//! Since when a schedule is finished.
ghost use Rattle.std.specs.Prelude.{◌≡◌, ◌≤◌, ◌<◌, nat_lt, ℕ, List, Option, Some, length};
ghost use Rattle.plain_words.specs.Lists.{change_nth};
ghost use Rattle.sched_plain.specs.Ledger.{LedgerCall};
ghost use Rattle.sched_plain.specs.Rows.{current_of};
ghost use Rattle.ledger_rows.specs.State.{Stands as LedgerStands};
ghost use Rattle.work_order.specs.Finished.{finished_with};
ghost use Rattle.date_table.specs.Dates.{IsDate, date_at};
ghost use Rattle.book_entries.specs.Finishing.{finished_by, finished_of, kept_date};

use date_table::DateTable;
use ledger_rows::Ledger;
use sched_plain::Schedule;
use sched_rows::{KeptRow, Rows};

/// The same of a current content, by what is to come and what waits.
fn finished_with(
    content: &Schedule,
    next: Option<u64>,
    waits: bool,
    entered: Option<u64>,
) -> Option<u64>
    ensures { result ≡ finished_with (Some content.now) next waits entered }
{
    if content.enabled && content.delete_after && next.is_none() && !waits {
        Some(entered.unwrap_or(0))
    } else {
        None
    }
}

/// The same of a current content, by the entries. What waits is counted only where the rest says that the schedule is finished.
fn finished_content(content: &Schedule, ledger: &Ledger, next: Option<u64>, inc: u32) -> Option<u64>
    ensures { (calls : List LedgerCall) → LedgerStands ledger.now calls → result ≡ finished_by (Some content.now) calls next inc }
{
    if !content.delete_after {
        return None;
    }
    if next.is_some() {
        return None;
    }
    finished_with(
        content,
        next,
        ledger.undecided(inc) > 0,
        ledger.last_entered(inc),
    )
}

/// The same of a row.
fn finished_row(row: &KeptRow, ledger: &Ledger, next: Option<u64>, inc: u32) -> Option<u64>
    ensures { (calls : List LedgerCall) → LedgerStands ledger.now calls → result ≡ finished_by (current_of row.now.row) calls next inc }
{
    match row.current() {
        Some(content) => finished_content(content, ledger, next, inc),
        None => None,
    }
}

/// Since when an incarnation is finished, by its row, its entries and its next instant.
fn finished_of(rows: &Rows, ledger: &Ledger, next: &DateTable, inc: u32) -> Option<u64>
    ensures { (calls : List LedgerCall) → LedgerStands ledger.now calls → result ≡ finished_of rows.now.rows calls next.now.dates inc }
{
    match rows.row(inc) {
        Some(row) => finished_row(row, ledger, next.get(inc), inc),
        None => None,
    }
}

/// The date that a table keeps: the greatest number is none.
fn kept_date(date: Option<u64>) -> Option<u64>
    ensures same { result ≡ kept_date date }
    ensures date { IsDate result }
{
    match date {
        Some(date) => if date < u64::MAX { Some(date) } else { None },
        None => None,
    }
}

/// Writes down anew since when an incarnation is finished.
pub fn refinish(rows: &Rows, ledger: &Ledger, next: &DateTable, finished: &mut DateTable, inc: u32)
    requires low { 1 ≤ inc }
    requires within { inc ≤ length finished.old.dates }
    ensures long { length finished.new.dates ≡ length finished.old.dates }
    ensures dates { (calls : List LedgerCall) → LedgerStands ledger.now calls → finished.new.dates ≡ change_nth (λ old. kept_date (finished_of rows.now.rows calls next.now.dates inc)) finished.old.dates inc }
{
    finished.set(inc, kept_date(finished_of(rows, ledger, next, inc)));
}
