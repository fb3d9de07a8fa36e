//! Reads of one occurrence: its entry and its attempts.
ghost use Rattle.std.specs.Prelude.{◌≡◌, IfOk, List};
ghost use Rattle.sched_plain.specs.Attempts.{attempts};
ghost use Rattle.sched_plain.specs.History.{History};
ghost use Rattle.sched_plain.specs.Ledger.{LedgerCall};
ghost use Rattle.sched_calls.specs.Replies.{answer_to, execution_of, execution_shown};
ghost use Rattle.sched_calls.specs.declared.read.Read.TheVariants as reads;
ghost use Rattle.sched_calls.specs.declared.reply.ReadReply.TheVariants as replies;
ghost use Rattle.ledger_rows.specs.State.{Stands as LedgerStands};
ghost use Rattle.book_parts.specs.Stands.{Stands};

use crate::refusals::no_execution;
use book_parts::Parts;
use ledger_rows::Ledger;
use sched_calls::{ReadReply, Refusal, Reply};
use sched_plain::{Attempts, Entry, Filed, TryCopy};
use sched_rows::KeptRow;
use std::alloc::{AllocError, Global};

/// The attempts of an occurrence, in order.
fn attempts_of(
    ledger: &Ledger,
    alloc: Global,
    inc: u32,
    instant: u64,
) -> Result<Attempts, AllocError>
    ensures { (calls : List LedgerCall) → LedgerStands ledger.now calls → IfOk result (λ all. all ≡ attempts calls inc instant) }
{
    Ok(Attempts::from_vec(Vec::from_slice(alloc, ledger.attempts(inc, instant))?))
}

/// An occurrence of an incarnation with its entry and its attempts.
fn shown(
    row: &KeptRow,
    inc: u32,
    instant: u64,
    entry: Entry,
    attempts: Attempts,
) -> Result<ReadReply, AllocError>
    ensures { IfOk result (λ shown. shown ≡ replies.Execution row.now.row.group row.now.row.name inc instant entry attempts) }
{
    Ok(ReadReply::Execution {
        group: row.group().copy()?,
        name: row.name().copy()?,
        inc,
        instant,
        entry,
        attempts,
    })
}

/// What an occurrence shows for which this is filed.
fn filed_shown(
    parts: &Parts,
    alloc: Global,
    inc: u32,
    instant: u64,
    filed: Filed,
) -> Result<Option<ReadReply>, AllocError>
    ensures { (h : History) → Stands parts.now h → IfOk result (λ shown. shown ≡ execution_shown h inc instant filed) }
{
    match parts.rows.row(inc) {
        Some(row) => {
            let attempts = attempts_of(&parts.ledger, alloc, inc, instant)?;
            Ok(Some(shown(row, inc, instant, filed.entry, attempts)?))
        }
        None => Ok(None),
    }
}

/// What an occurrence shows, if it has an entry.
fn execution_of(
    parts: &Parts,
    alloc: Global,
    inc: u32,
    instant: u64,
) -> Result<Option<ReadReply>, AllocError>
    ensures { (h : History) → Stands parts.now h → IfOk result (λ shown. shown ≡ execution_of h inc instant) }
{
    match parts.ledger.filed(inc, instant) {
        Some(filed) => filed_shown(parts, alloc, inc, instant, filed),
        None => Ok(None),
    }
}

/// The answer to a read of an occurrence.
pub fn read_execution(
    parts: &Parts,
    alloc: Global,
    inc: u32,
    instant: u64,
) -> Result<Result<Reply, Refusal>, AllocError>
    ensures { (h : History) → Stands parts.now h → IfOk result (λ answer. answer ≡ answer_to h (reads.Execution inc instant)) }
{
    match execution_of(parts, alloc, inc, instant)? {
        Some(shown) => Ok(Ok(Reply::Read(shown))),
        None => Ok(Err(no_execution(alloc, inc, instant)?)),
    }
}
