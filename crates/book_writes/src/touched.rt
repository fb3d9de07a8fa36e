//! What is done to each incarnation that a write touches, one after another: no list of them is made.
ghost use Rattle.std.specs.Prelude.{◌≡◌, ◌≤◌, None, List, length};
ghost use Rattle.sched_plain.specs.Ledger.{LedgerCall};
ghost use Rattle.ledger_rows.specs.State.{Stands as LedgerStands};
ghost use Rattle.book_writes.specs.Touching.{is_touched, SetsWhere};
ghost use Rattle.book_writes.specs.Cancelling.{Cancels};

use date_table::DateTable;
use ledger_rows::Ledger;
use sched_plain::Write;
use sched_rows::Rows;

/// Takes the date of each incarnation that a write touches.
pub fn end_dates(rows: &Rows, write: &Write, dates: &mut DateTable)
    requires { length rows.now.rows ≤ length dates.old.dates }
    ensures dates { SetsWhere (is_touched rows.now.rows write.now) (λ inc date. date ≡ None) dates.old.dates dates.new.dates }
    ensures room { dates.new.room ≡ dates.old.room }
{
    let mut after = 0;
    while let Some(inc) = rows.next_touched(write, after) {
        dates.set(inc, None);
        after = inc;
    }
}

/// Cancels the entries of each incarnation that a write touches.
pub fn cancel_touched(rows: &Rows, write: &Write, ledger: &mut Ledger)
    ensures calls { (calls : List LedgerCall) → LedgerStands ledger.old calls → Cancels (is_touched rows.now.rows write.now) ledger.new calls }
    ensures flights { ledger.new.flights ≡ ledger.old.flights }
{
    let mut after = 0;
    while let Some(inc) = rows.next_touched(write, after) {
        ledger.cancel(inc);
        after = inc;
    }
}
