//! Reads of the dead letters of a queue.
ghost use Rattle.std.specs.Prelude.{◌≡◌, ◌+◌, ◌++◌, ◌<◌, ◌^◌, length, IfOk, OnOk};
ghost use Rattle.std.specs.Option.{option_to_list};
ghost use Rattle.sched_plain.specs.History.{History};
ghost use Rattle.sched_calls.specs.Replies.{answer_to, letter_row, letter_rows};
ghost use Rattle.sched_calls.specs.declared.read.Read.TheVariants as reads;
ghost use Rattle.book_parts.specs.Stands.{Stands};

use book_parts::Parts;
use sched_calls::{LetterRow, LetterRows, ReadReply, Refusal, Reply};
use sched_plain::{Items, Letter, Text, TryCopy};
use sched_rows::{KeptRow, Rows};
use std::alloc::{AllocError, Global};

/// A letter with its number, and the names of the schedule that it is about.
fn shown(row: &KeptRow, number: u64, letter: Letter) -> Result<LetterRow, AllocError>
    ensures { IfOk result (λ shown. shown ≡ record { number = number; inc = letter.inc; instant = letter.instant; reason = letter.reason; group = row.now.row.group; name = row.now.row.name }) }
{
    Ok(LetterRow {
        number,
        inc: letter.inc,
        instant: letter.instant,
        reason: letter.reason,
        group: row.group().copy()?,
        name: row.name().copy()?,
    })
}

/// The same, where the schedule is there.
fn letter_row(rows: &Rows, number: u64, letter: Letter) -> Result<Option<LetterRow>, AllocError>
    ensures { IfOk result (λ row. option_to_list row ≡ letter_row rows.now.rows number letter) }
{
    match rows.row(letter.inc) {
        Some(row) => Ok(Some(shown(row, number, letter)?)),
        None => Ok(None),
    }
}

/// Adds a letter to a page, where there is one to add.
fn put_shown(page: &mut LetterRows, row: Option<LetterRow>) -> Result<(), AllocError>
    ensures { OnOk result (page.new ≡ page.old ++ option_to_list row) }
{
    match row {
        Some(row) => page.push(row),
        None => Ok(()),
    }
}

/// Letters as a list shows them, numbered behind the first `after`.
fn letter_rows(
    rows: &Rows,
    alloc: Global,
    letters: &[Letter],
    after: u64,
) -> Result<LetterRows, AllocError>
    requires { after + length letters.now < 2 ^ 64 }
    ensures { IfOk result (λ page. page ≡ letter_rows rows.now.rows (after + 1) letters.now) }
{
    let mut page = Items::new(alloc);
    for i in 0..letters.len() {
        let row = letter_row(rows, after + 1 + i as u64, letters[i])?;
        put_shown(&mut page, row)?;
    }
    Ok(page)
}

/// The answer to a read of the letters of a queue behind the first `after`, at most `max`.
pub fn read_letters(
    parts: &Parts,
    alloc: Global,
    queue: &Text,
    after: u64,
    max: u8,
) -> Result<Result<Reply, Refusal>, AllocError>
    ensures { (h : History) → Stands parts.now h → IfOk result (λ answer. answer ≡ answer_to h (reads.Letters queue.now after max)) }
{
    let letters = parts.letters.letters(queue, after, max)?;
    let page = letter_rows(&parts.rows, alloc, letters.as_slice(), after)?;
    Ok(Ok(Reply::Read(ReadReply::Letters(page))))
}
