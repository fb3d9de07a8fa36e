//! A Change over the parts.
ghost use Rattle.std.specs.Prelude.{◌≡◌, ◌≤◌, ◌<◌, ◌++◌, ◌^◌, None, List, length};
ghost use Rattle.plain_words.specs.declared.limits.TheConstants.{LAST_MOMENT};
ghost use Rattle.sched_plain.specs.declared.step.Step.TheVariants as steps;
ghost use Rattle.sched_plain.specs.Groups.{row_fault};
ghost use Rattle.sched_plain.specs.Tokens.{Kept};
ghost use Rattle.sched_plain.specs.Validity.{IsWrite};
ghost use Rattle.sched_rows.specs.State.{HasRoom};
ghost use Rattle.token_shelf.specs.Shelves.{Keeps};
ghost use Rattle.book_parts.specs.Stands.{Takes};
ghost use Rattle.book_writes.specs.Keeping.{HasTokenRoom, keeper_of, kept_of_keeper};
ghost use Rattle.book_writes.specs.Redating.{HasDateRoom, HasZone};

use crate::redate::redate;
use book_parts::Parts;
use next_dates::steps_change_the_next_instant;
use sched_plain::{Moment, Token, Write};
use token_shelf::Shelf;
use work_order::work_is_by_dates;

/// Keeps a token with its write, where there is one, for the step at a place. Takes no memory.
fn keep(shelf: &mut Shelf, keeper: Option<(Token, Write)>, place: u64)
    requires { HasTokenRoom shelf.old keeper }
    ensures { (kept : List Kept) → Keeps shelf.old kept → Keeps shelf.new (kept ++ kept_of_keeper keeper place) }
{
    if let Some((token, write)) = keeper {
        shelf.keep(token, write, place);
    }
}

/// Takes a Change of the schedules and groups that has no fault, at a moment. `keeper` is the write's token with a copy of
/// the write, where it has a token. What it touches and creates has its dates anew, and what it ends has its entries
/// cancelled. Takes no memory.
pub fn change(parts: &mut Parts, at: Moment, write: Write, keeper: Option<(Token, Write)>)
    requires valid { IsWrite write }
    requires moment { parts.old.moment ≤ at.0 }
    requires last { at.0 ≤ LAST_MOMENT }
    requires few { parts.old.steps < 2 ^ 62 }
    requires allowed { row_fault parts.old.rows.rows parts.old.rows.groups write ≡ None }
    requires known { HasZone parts.old.zones write }
    requires keeper { keeper ≡ keeper_of write }
    requires token { HasTokenRoom parts.old.shelf keeper }
    requires room { HasRoom parts.old.rows write }
    requires dates { HasDateRoom write (length parts.old.rows.rows) parts.old.next.room parts.old.finished.room }
    ensures { Takes parts.old parts.new (steps.Change at write) }
{
    steps_change_the_next_instant();
    work_is_by_dates();
    redate(
        &parts.rows,
        &parts.zones,
        &parts.utc,
        &write,
        at,
        &mut parts.ledger,
        &mut parts.next,
        &mut parts.finished,
    );
    keep(&mut parts.shelf, keeper, parts.steps + 1);
    parts.rows.apply(write, at);
    parts.moment = at;
    parts.steps += 1;
}
