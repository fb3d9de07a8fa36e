//! The bodies of errors.
ghost use Rattle.std.specs.Prelude.{◌≡◌, IfOk};
ghost use Rattle.std.specs.String.{string_bytes};
ghost use Rattle.reply_bodies.specs.Messages.{message_body, refusal_message};

use crate::body::Body;
use sched_calls::Refusal;
use std::alloc::{AllocError, Global};

/// The body that shows a message. An `Err` is want of memory.
pub fn encode_message(alloc: Global, message: &str) -> Result<Vec<u8>, AllocError>
    ensures { IfOk result (λ body. body.items ≡ message_body message.now) }
{
    let mut body = Body::new(alloc);
    body.begin_object()?;
    body.text("Message", message)?;
    body.end_object()?;
    Ok(body.into_bytes())
}

/// The message of a refusal: its rule, counted from 1, and what breaks it. An `Err` is want of memory.
fn message_of(alloc: Global, refusal: &Refusal) -> Result<String, AllocError>
    ensures { IfOk result (λ message. string_bytes message ≡ refusal_message refusal.now) }
{
    let mut message = String::from_str(alloc, "rule ")?;
    message.push_str(refusal.rule.to_string(alloc)?.as_str())?;
    message.push_str(": ")?;
    message.push_str(refusal.subject.as_str())?;
    Ok(message)
}

/// The body that shows the message of a refusal. An `Err` is want of memory.
pub fn encode_refusal(alloc: Global, refusal: &Refusal) -> Result<Vec<u8>, AllocError>
    ensures { IfOk result (λ body. body.items ≡ message_body (refusal_message refusal.now)) }
{
    let message = message_of(alloc, refusal)?;
    encode_message(alloc, message.as_str())
}
