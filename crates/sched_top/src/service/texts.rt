//! The texts of answers.
ghost use Rattle.std.specs.Prelude.{◌≡◌, ◌++◌, codes, decimal, IfOk, None as Absent, Ok as Good, Err as Bad};
ghost use Rattle.sched_calls.specs.Replies.{refusal};
ghost use Rattle.http_wire.specs.Response.{error_text};
ghost use Rattle.reply_bodies.specs.Messages.{message_body};
ghost use Rattle.sched_top.specs.Serving.{answer_text, full_text};

use http_wire::{write_error, write_response};
use reply_bodies::{encode, encode_message, encode_refusal};
use sched_calls::{Refusal, Reply};
use sched_plain::Text;
use std::alloc::{AllocError, Global};

/// The rule that a step has room in the journal.
const ROOM_RULE: u8 = 13;

/// The text of a reply, over a history with so many steps. An `Err` is want of memory.
fn reply_text(alloc: Global, reply: &Reply, steps: u64) -> Result<Vec<u8>, AllocError>
    ensures { IfOk result (λ text. text.items ≡ answer_text (Good reply.now) steps) }
{
    let body = encode(alloc, reply)?;
    write_response(alloc, 200, None, &body, Some(steps))
}

/// The text of a refusal, over a history with so many steps. An `Err` is want of memory.
fn refusal_text(alloc: Global, refusal: &Refusal, steps: u64) -> Result<Vec<u8>, AllocError>
    ensures { IfOk result (λ text. text.items ≡ answer_text (Bad refusal.now) steps) }
{
    let body = encode_refusal(alloc, refusal)?;
    write_error(alloc, refusal.status, &body, Some(steps))
}

/// The text of an answer, over a history with so many steps. An `Err` is want of memory.
pub fn text_of_answer(
    alloc: Global,
    answer: &Result<Reply, Refusal>,
    steps: u64,
) -> Result<Vec<u8>, AllocError>
    ensures { IfOk result (λ text. text.items ≡ answer_text answer.now steps) }
{
    match answer {
        Ok(reply) => reply_text(alloc, reply, steps),
        Err(refusal) => refusal_text(alloc, refusal, steps),
    }
}

/// The refusal where a step has no room. An `Err` is want of memory.
fn room_refusal(alloc: Global, end: u64, need: u64) -> Result<Refusal, AllocError>
    ensures { IfOk result (λ refused. refused ≡ refusal 13 402 (codes "end " ++ decimal end ++ codes " need " ++ decimal need)) }
{
    Ok(Refusal {
        rule: ROOM_RULE,
        status: 402,
        subject: Text::from_string(format!(in alloc; "end {end} need {need}")?),
    })
}

/// The text where a step has no room: the journal ends at `end`, and the step needs `need` bytes more. An `Err` is want of memory.
pub fn text_of_full(alloc: Global, end: u64, need: u64, steps: u64) -> Result<Vec<u8>, AllocError>
    ensures { IfOk result (λ text. text.items ≡ full_text end need steps) }
{
    let refusal = room_refusal(alloc, end, need)?;
    refusal_text(alloc, &refusal, steps)
}

/// The text where what lies below the service failed. It tells nothing of the history. An `Err` is want of memory.
pub fn text_of_failure(alloc: Global, message: &str) -> Result<Vec<u8>, AllocError>
    ensures { IfOk result (λ text. text.items ≡ error_text 500 (message_body message.now) Absent) }
{
    let body = encode_message(alloc, message)?;
    write_error(alloc, 500, &body, None)
}
