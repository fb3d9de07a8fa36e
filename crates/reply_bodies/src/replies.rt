//! The body that shows a reply.
ghost use Rattle.std.specs.Prelude.{◌≡◌, ◌++◌, IfOk, OnOk};
ghost use Rattle.std.specs.Str.{IsUtf8};
ghost use Rattle.json.specs.Lex.{tokens};
ghost use Rattle.sched_plain.specs.declared.write.Write.{Write};
ghost use Rattle.sched_calls.specs.Replies.{reply_to};
ghost use Rattle.sched_calls.specs.declared.reply.Reply.TheVariants.{Created, Settled};
ghost use Rattle.reply_bodies.specs.Bodies.{body_of, body_of_write, read_shown, reply_shown};

use crate::arns::created_member;
use crate::body::Body;
use crate::execution::put_execution;
use crate::groups::{put_group, put_group_page};
use crate::letters::put_letters;
use crate::schedule::put_schedule;
use crate::schedules::put_page;
use sched_calls::{ReadReply, Reply};
use sched_plain::{Moment, Text};
use std::alloc::{AllocError, Global};

/// The JSON body that shows a reply; that of a deletion is empty. An `Err` is want of memory.
pub fn encode(alloc: Global, reply: &Reply) -> Result<Vec<u8>, AllocError>
    ensures body { IfOk result (λ body. body.items ≡ body_of reply.now) }

    // It is text, and a reader of JSON finds in it what is to be shown.
    ensures utf8 { IfOk result (λ body. IsUtf8 body.items) }
    ensures read { IfOk result (λ body. tokens body.items ≡ reply_shown reply.now) }

    // What an accepted write is answered shows the arn by the member that the write's kind names.
    ensures write { (write : Write) → reply.now ≡ reply_to write → IfOk result (λ body. body.items ≡ body_of_write write) }
{
    let mut body = Body::new(alloc);
    put_reply(alloc, &mut body, reply)?;
    Ok(body.into_bytes())
}

fn put_reply(alloc: Global, body: &mut Body, reply: &Reply) -> Result<(), AllocError>
    ensures { OnOk result (body.new ≡ body.old ++ reply_shown reply.now) }
{
    match reply {
        Reply::Created { arn } => put_created(body, arn),
        Reply::Empty => Ok(()),
        Reply::Read(reply) => put_read(alloc, body, reply),
        Reply::Settled { at } => put_settled(body, *at),
    }
}

/// The arn of what was created or updated.
fn put_created(body: &mut Body, arn: &Text) -> Result<(), AllocError>
    ensures { OnOk result (body.new ≡ body.old ++ reply_shown (Created arn.now)) }
{
    body.begin_object()?;
    body.text(created_member(arn.as_str()), arn.as_str())?;
    body.end_object()
}

/// The moment at which a sweep is settled.
fn put_settled(body: &mut Body, at: Moment) -> Result<(), AllocError>
    ensures { OnOk result (body.new ≡ body.old ++ reply_shown (Settled at)) }
{
    body.begin_object()?;
    body.number("Moment", at.0)?;
    body.end_object()
}

fn put_read(alloc: Global, body: &mut Body, reply: &ReadReply) -> Result<(), AllocError>
    ensures { OnOk result (body.new ≡ body.old ++ read_shown reply.now) }
{
    match reply {
        ReadReply::Schedule {
            group,
            name,
            created,
            changed,
            content,
        } => put_schedule(alloc, body, group, name, *created, *changed, content),
        ReadReply::Group(row) => put_group(alloc, body, row),
        ReadReply::Schedules(page) => put_page(alloc, body, page),
        ReadReply::Groups(page) => put_group_page(alloc, body, page),
        ReadReply::Execution {
            group,
            name,
            inc,
            instant,
            entry,
            attempts,
        } => put_execution(
            alloc,
            body,
            group,
            name,
            *inc,
            *instant,
            *entry,
            attempts.as_slice(),
        ),
        ReadReply::Letters(rows) => put_letters(alloc, body, rows.as_slice()),
    }
}
