//! Replies to show over and over.
use sched_calls::{ListRow, ListRows, Page, ReadReply, Reply};
use sched_plain::{Expr, Moment, Name, Policy, Schedule, Text, Unit, ZoneName};
use std::alloc::{AllocError, Global};

/// How many schedules a page may show.
const ROWS: usize = 100;

/// The reply of a case, if it is one.
pub fn reply_of(alloc: Global, case: &str) -> Result<Option<Reply>, AllocError> {
    match case {
        "created" => Ok(Some(created(alloc)?)),
        "schedule" => Ok(Some(schedule(alloc)?)),
        "page" => Ok(Some(page(alloc)?)),
        _ => Ok(None),
    }
}

fn text_of(alloc: Global, text: &str) -> Result<Text, AllocError> {
    Ok(Text::from_string(String::from_str(alloc, text)?))
}

fn name_of(alloc: Global, text: &str) -> Result<Name, AllocError> {
    match Name::read(alloc, text.as_bytes()) {
        Ok(name) => Ok(name),
        Err(_) => Err(AllocError),
    }
}

fn zone_of(alloc: Global, text: &str) -> Result<ZoneName, AllocError> {
    match ZoneName::read(alloc, text.as_bytes()) {
        Ok(zone) => Ok(zone),
        Err(_) => Err(AllocError),
    }
}

fn created(alloc: Global) -> Result<Reply, AllocError> {
    let arn = "arn:aws:scheduler:local:000000000000:schedule/default/once";
    Ok(Reply::Created {
        arn: text_of(alloc, arn)?,
    })
}

/// Two texts at once, so that what stands on several has few exits.
fn two_texts(alloc: Global, first: &str, second: &str) -> Result<(Text, Text), AllocError> {
    let first = text_of(alloc, first)?;
    let second = text_of(alloc, second)?;
    Ok((first, second))
}

/// A group and a name in it.
fn place(alloc: Global) -> Result<(Name, Name), AllocError> {
    let group = name_of(alloc, "default")?;
    let name = name_of(alloc, "report")?;
    Ok((group, name))
}

/// A content with all that can be shown.
fn content(alloc: Global) -> Result<Schedule, AllocError> {
    let (description, text) = two_texts(alloc, "for the \"report\"\n", "rate(1 hour)")?;
    let (target, role) = two_texts(
        alloc,
        "http://127.0.0.1:9000/hook",
        "arn:aws:iam::123456789012:role/sched",
    )?;
    let (queue, input) = two_texts(alloc, "arn:aws:sqs:local:000000000000:letters", "{\"n\":1}")?;
    let zone = zone_of(alloc, "America/New_York")?;
    Ok(Schedule {
        description,
        text,
        expr: Expr::Rate {
            count: 1,
            unit: Unit::Hour,
        },
        zone,
        start: Some(1_767_225_600),
        finish: Some(7_258_118_399),
        enabled: true,
        delete_after: true,
        window: 15,
        policy: Policy {
            retries: 3,
            age: 3_600,
        },
        target,
        role,
        queue: Some(queue),
        input: Some(input),
    })
}

fn schedule(alloc: Global) -> Result<Reply, AllocError> {
    let (group, name) = place(alloc)?;
    let content = content(alloc)?;
    Ok(Reply::Read(ReadReply::Schedule {
        group,
        name,
        created: Moment(1_767_225_600),
        changed: Moment(1_767_225_660),
        content,
    }))
}

fn row(alloc: Global) -> Result<ListRow, AllocError> {
    let (group, name) = place(alloc)?;
    let target = text_of(alloc, "http://127.0.0.1:9000/hook")?;
    Ok(ListRow {
        group,
        name,
        created: Moment(1_767_225_600),
        changed: Moment(1_767_225_660),
        enabled: true,
        target,
    })
}

/// A page of as many equal rows as one may show.
fn rows(alloc: Global) -> Result<ListRows, AllocError> {
    let mut rows = ListRows::new(alloc);
    for _ in 0..ROWS {
        rows.push(row(alloc)?)?;
    }
    Ok(rows)
}

fn page(alloc: Global) -> Result<Reply, AllocError> {
    let rows = rows(alloc)?;
    Ok(Reply::Read(ReadReply::Schedules(Page { rows, more: true })))
}
