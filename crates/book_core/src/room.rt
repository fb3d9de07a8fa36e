//! Room for what a step adds, so that the step is taken without memory.
ghost use Rattle.std.specs.Prelude.{◌≡◌, ◌+◌, ◌≤◌, ◌<◌, ◌^◌, ℕ, List, true, Some, is_some, IfOk, IfSome, OnOk, length};
ghost use Rattle.plain_words.specs.declared.limits.TheConstants.{MOST_PAIRS, LONGEST_ZONE};
ghost use Rattle.sched_plain.specs.Rows.{content_at};
ghost use Rattle.sched_plain.specs.Queues.{queue_of};
ghost use Rattle.sched_plain.specs.Tokens.{kept_under};
ghost use Rattle.sched_plain.specs.Validity.{IsValid};
ghost use Rattle.ledger_rows.specs.State.{HasEnterRoom};
ghost use Rattle.dead_letters.specs.Piles.{letters_in, room_in};
ghost use Rattle.zone_shelf.specs.Places.{HasRoom as HasZoneRoom};
ghost use Rattle.zone_occ.specs.ZoneBytes.{zone_of as zone_read};
ghost use Rattle.zone_occ.specs.declared.zone.ZoneFault.TheVariants as ZoneFault;
ghost use Rattle.book_entries.specs.LetterRoom.{HasLetterRoom};
ghost use Rattle.book_writes.specs.Keeping.{keeper_of};
ghost use Rattle.step_needs.specs.Writes.{HasDatePlaces, HasTokenPlace};
ghost use Rattle.book_core.specs.Room.{IsLight, IsRoomier, HasWriteRoom, HasAttemptRoom, HasKindRoom, HasRoom};
ghost use Rattle.book_core.specs.State.{MayTake, Stood};

use book_entries::queue_at;
use book_parts::{Parts, token_of};
use date_table::DateTable;
use dead_letters::DeadLetters;
use ledger_rows::Ledger;
use plain_words::{Blob, Token, TryCopy, ZoneName};
use sched_plain::{Pairs, Step, Write};
use sched_rows::Rows;
use std::alloc::AllocError;
use token_shelf::Shelf;
use zone_occ::ZoneFault;

/// So many steps are counted, with the attempts in the air.
const MOST_STEPS: u64 = 4611686018427387904;

/// How many attempts are in the air, where one more step can be counted, and the Ends of them all.
fn live_where_light(parts: &Parts) -> Option<u64>
    requires { Stood parts.now }
    ensures light { IfSome result (λ live. IsLight parts.now) }
    ensures live { IfSome result (λ live. live ≡ length parts.now.ledger.flights) }
{
    let live = parts.ledger.live(None);
    if live < MOST_STEPS && parts.steps < MOST_STEPS - live {
        Some(live)
    } else {
        None
    }
}

/// The token of a write with a copy of the write, where it has one.
fn spare_of(write: &Write) -> Result<Option<(Token, Write)>, AllocError>
    ensures { IfOk result (λ spare. spare ≡ keeper_of write.now) }
{
    match token_of(write) {
        Some(token) => Ok(Some((token.copy()?, write.copy()?))),
        None => Ok(None),
    }
}

/// Room for one more incarnation in both tables of dates.
fn reserve_dates(next: &mut DateTable, finished: &mut DateTable) -> Result<(), AllocError>
    ensures next { next.new.dates ≡ next.old.dates }
    ensures finished { finished.new.dates ≡ finished.old.dates }
    ensures coming { OnOk result (1 ≤ next.new.room) }
    ensures ending { OnOk result (1 ≤ finished.new.room) }
{
    next.reserve()?;
    finished.reserve()
}

/// Room for the dates that a write makes.
fn reserve_dates_of(
    write: &Write,
    next: &mut DateTable,
    finished: &mut DateTable,
) -> Result<(), AllocError>
    ensures next { next.new.dates ≡ next.old.dates }
    ensures finished { finished.new.dates ≡ finished.old.dates }
    ensures room { OnOk result (HasDatePlaces write.now next.new.room finished.new.room) }
{
    match write {
        Write::CreateSchedule { .. } => reserve_dates(next, finished),
        Write::UpdateSchedule { .. } => Ok(()),
        Write::DeleteSchedule { .. } => Ok(()),
        Write::CreateGroup { .. } => Ok(()),
        Write::DeleteGroup { .. } => Ok(()),
    }
}

/// Room for a token, where there is one.
fn reserve_token(shelf: &mut Shelf, spare: &Option<(Token, Write)>) -> Result<(), AllocError>
    ensures kept { (token : List ℕ) → kept_under shelf.new.kept token ≡ kept_under shelf.old.kept token }
    ensures room { OnOk result (HasTokenPlace shelf.new spare.now) }
{
    match spare {
        Some(_) => shelf.reserve(),
        None => Ok(()),
    }
}

/// Room for a Change, with its token and a copy of its write.
fn reserve_write(
    parts: &mut Parts,
    spare: &mut Option<(Token, Write)>,
    write: &Write,
) -> Result<(), AllocError>
    ensures same { IsRoomier parts.old parts.new }
    ensures room { OnOk result (HasWriteRoom parts.new spare.new write.now) }
{
    *spare = spare_of(write)?;
    reserve_token(&mut parts.shelf, spare)?;
    reserve_dates_of(write, &mut parts.next, &mut parts.finished)?;
    parts.rows.reserve(write)
}

/// Room for the letter of one more attempt of an occurrence, beside those in the air.
fn reserve_letter(
    rows: &Rows,
    ledger: &Ledger,
    letters: &mut DeadLetters,
    inc: u32,
    instant: u64,
    live: u64,
) -> Result<(), AllocError>
    requires live { live < 2 ^ 62 }
    ensures letters { (q : List ℕ) → letters_in letters.new q ≡ letters_in letters.old q }
    ensures kept { (q : List ℕ) → room_in letters.old q ≤ room_in letters.new q }
    ensures room { OnOk result ((queue : List ℕ) → queue_of (content_at rows.now.rows inc instant) ≡ Some queue → live + 1 ≤ room_in letters.new queue) }
{
    match queue_at(rows, inc, instant) {
        Some(queue) => letters.reserve(queue, live + 1),
        None => Ok(()),
    }
}

/// Room for an attempt, and for its letter.
fn reserve_attempt(parts: &mut Parts, inc: u32, instant: u64, live: u64) -> Result<(), AllocError>
    requires live { live ≡ length parts.old.ledger.flights }
    requires few { live < 2 ^ 62 }
    ensures same { IsRoomier parts.old parts.new }
    ensures room { OnOk result (HasAttemptRoom parts.new inc instant) }
{
    parts.ledger.reserve_begin(inc, instant)?;
    reserve_letter(
        &parts.rows,
        &parts.ledger,
        &mut parts.letters,
        inc,
        instant,
        live,
    )
}

/// Room for the letter of a Close.
fn reserve_close(parts: &mut Parts, inc: u32, instant: u64, live: u64) -> Result<(), AllocError>
    requires live { live ≡ length parts.old.ledger.flights }
    requires few { live < 2 ^ 62 }
    ensures same { IsRoomier parts.old parts.new }
    ensures room { OnOk result (HasLetterRoom parts.new inc instant) }
{
    reserve_letter(
        &parts.rows,
        &parts.ledger,
        &mut parts.letters,
        inc,
        instant,
        live,
    )
}

/// Room for the entries of these pairs.
fn reserve_enter(parts: &mut Parts, inc: u32, pairs: &Pairs) -> Result<(), AllocError>
    requires { length pairs.now ≤ MOST_PAIRS }
    ensures same { IsRoomier parts.old parts.new }
    ensures room { OnOk result (HasEnterRoom parts.new.ledger inc (length pairs.now)) }
{
    parts.ledger.reserve_enter(inc, pairs.len() as u16)
}

/// Want of memory, where that is what kept a zone from being read.
fn memory_of(fault: ZoneFault) -> AllocError
    requires { fault ≡ ZoneFault.OutOfMemory }
{
    let _ = fault;
    AllocError
}

/// Room for a zone of these bytes, which are one.
fn reserve_zone(parts: &mut Parts, name: &ZoneName, bytes: &Blob) -> Result<(), AllocError>
    requires short { length bytes.now ≤ LONGEST_ZONE }
    requires zone { is_some (zone_read bytes.now) ≡ true }
    ensures same { IsRoomier parts.old parts.new }
    ensures room { OnOk result (HasZoneRoom parts.new.zones name.now bytes.now) }
{
    match parts.zones.reserve(name, bytes) {
        Ok(()) => Ok(()),
        Err(fault) => Err(memory_of(fault)),
    }
}

/// Room for what a kind of step adds, where so many attempts are in the air.
fn reserve_kind(
    parts: &mut Parts,
    spare: &mut Option<(Token, Write)>,
    step: &Step,
    live: u64,
) -> Result<(), AllocError>
    requires valid { IsValid step.now }
    requires stood { Stood parts.old }
    requires may { MayTake parts.old step.now }
    requires live { live ≡ length parts.old.ledger.flights }
    requires few { live < 2 ^ 62 }
    ensures same { IsRoomier parts.old parts.new }
    ensures room { OnOk result (HasKindRoom parts.new spare.new step.now) }
{
    match step {
        Step::Zone { name, bytes, .. } => reserve_zone(parts, name, bytes),
        Step::Change { write, .. } => reserve_write(parts, spare, write),
        Step::Enter { inc, pairs, .. } => reserve_enter(parts, *inc, pairs),
        Step::Begin { inc, instant, .. } => reserve_attempt(parts, *inc, *instant, live),
        Step::Close { inc, instant, .. } => reserve_close(parts, *inc, *instant, live),
        Step::Boot { .. }
        | Step::Lease { .. }
        | Step::Release { .. }
        | Step::End { .. }
        | Step::Complete { .. }
        | Step::Swept { .. } => Ok(()),
    }
}

/// Room for a step that can be counted.
fn reserve_counted(
    parts: &mut Parts,
    spare: &mut Option<(Token, Write)>,
    step: &Step,
) -> Result<(), AllocError>
    requires valid { IsValid step.now }
    requires stood { Stood parts.old }
    requires may { MayTake parts.old step.now }
    ensures same { IsRoomier parts.old parts.new }
    ensures light { OnOk result (IsLight parts.new) }
    ensures room { OnOk result (HasKindRoom parts.new spare.new step.now) }
{
    match live_where_light(parts) {
        Some(live) => reserve_kind(parts, spare, step, live),
        None => Err(AllocError),
    }
}

/// Makes room for a step that may follow. It fails only for want of memory, or where no more steps can be counted. An End has
/// its room since its Begin.
pub fn reserve(
    parts: &mut Parts,
    spare: &mut Option<(Token, Write)>,
    step: &Step,
) -> Result<(), AllocError>
    requires valid { IsValid step.now }
    requires stood { Stood parts.old }
    requires may { MayTake parts.old step.now }
    ensures same { IsRoomier parts.old parts.new }
    ensures room { OnOk result (HasRoom parts.new spare.new step.now) }
{
    match step {
        Step::End { .. } => Ok(()),
        _ => reserve_counted(parts, spare, step),
    }
}
