//! What a write finds unentered.
ghost use Rattle.std.specs.Prelude.{◌≡◌};
ghost use Rattle.std.specs.Option.{option_map};
ghost use Rattle.plain_words.specs.Lists.{first_answer};
ghost use Rattle.sched_plain.specs.Rows.{touched_by};
ghost use Rattle.step_rules.specs.Looked.{occurrence_of};
ghost use Rattle.date_table.specs.Dates.{date_at};
ghost use Rattle.next_dates.specs.Dates.{come_by};
ghost use Rattle.book_parts.specs.Touching.{come_at};

use date_table::DateTable;
use sched_plain::{Moment, Write};
use sched_rows::Rows;

/// The next instant of an incarnation, where it has come.
fn come_at(next: &DateTable, at: Moment, inc: u32) -> Option<(u32, u64)>
    ensures { option_map occurrence_of result ≡ come_at next.now.dates at.0 inc }
{
    let instant = next.get(inc)?;
    if instant <= at.0 {
        Some((inc, instant))
    } else {
        None
    }
}

/// The least incarnation that a write touches whose next instant has come at a moment, with that instant. It makes no list.
pub fn first_open(rows: &Rows, next: &DateTable, write: &Write, at: Moment) -> Option<(u32, u64)>
    ensures { option_map occurrence_of result ≡ first_answer (come_at next.now.dates at.0) (touched_by rows.now.rows write.now) }
{
    let mut after = 0;
    while let Some(inc) = rows.next_touched(write, after) {
        if let Some(found) = come_at(next, at, inc) {
            return Some(found);
        }
        after = inc;
    }
    None
}
