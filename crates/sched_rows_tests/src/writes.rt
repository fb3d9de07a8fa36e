//! Writes in plain words.
use sched_plain::{Civil, Expr, Name, NameFault, Policy, Schedule, Text, Write, ZoneName};
use std::alloc::{AllocError, Global};
use std::test::Fail;

/// A write in plain words: a group, the name of a schedule in it, and the minutes of its window, by which a test knows a
/// content again. A schedule with an odd window is disabled.
#[derive(Debug, Clone, Copy)]
pub enum Plan<'a> {
    Create(&'a str, &'a str, u16),
    Update(&'a str, &'a str, u16),
    Delete(&'a str, &'a str),
    CreateGroup(&'a str),
    DeleteGroup(&'a str),
}

pub fn name_of(alloc: Global, text: &str) -> Result<Name, NameFault> {
    Name::read(alloc, text.as_bytes())
}

pub fn text_of(alloc: Global, text: &str) -> Result<Text, AllocError> {
    Ok(Text::from_string(String::from_str(alloc, text)?))
}

/// A content with a window of so many minutes. Texts that rows do not look at are empty.
fn content(alloc: Global, window: u16) -> Result<Schedule, Fail> {
    let zone = ZoneName::read(alloc, b"UTC")?;
    let target = text_of(alloc, "http://127.0.0.1:9000/hook")?;
    Ok(Schedule {
        description: Text::from_string(String::new(alloc)),
        text: Text::from_string(String::new(alloc)),
        expr: Expr::At(Civil {
            year: 2030,
            month: 1,
            day: 1,
            hour: 0,
            minute: 0,
            second: 0,
        }),
        zone,
        start: None,
        finish: None,
        enabled: window % 2 == 0,
        delete_after: false,
        window,
        policy: Policy {
            retries: 0,
            age: 60,
        },
        target,
        role: Text::from_string(String::new(alloc)),
        queue: None,
        input: None,
    })
}

fn creation(alloc: Global, group: &str, name: &str, window: u16) -> Result<Write, Fail> {
    let group = name_of(alloc, group)?;
    let name = name_of(alloc, name)?;
    let content = content(alloc, window)?;
    Ok(Write::CreateSchedule {
        group,
        name,
        token: None,
        content,
    })
}

fn update(alloc: Global, group: &str, name: &str, window: u16) -> Result<Write, Fail> {
    let group = name_of(alloc, group)?;
    let name = name_of(alloc, name)?;
    let content = content(alloc, window)?;
    Ok(Write::UpdateSchedule {
        group,
        name,
        token: None,
        content,
    })
}

fn deletion(alloc: Global, group: &str, name: &str) -> Result<Write, Fail> {
    let group = name_of(alloc, group)?;
    let name = name_of(alloc, name)?;
    Ok(Write::DeleteSchedule {
        group,
        name,
        token: None,
    })
}

fn group_creation(alloc: Global, name: &str) -> Result<Write, Fail> {
    let name = name_of(alloc, name)?;
    Ok(Write::CreateGroup { name, token: None })
}

fn group_deletion(alloc: Global, name: &str) -> Result<Write, Fail> {
    let name = name_of(alloc, name)?;
    Ok(Write::DeleteGroup { name, token: None })
}

/// The write that a plan says.
pub fn write_of(alloc: Global, plan: Plan) -> Result<Write, Fail> {
    match plan {
        Plan::Create(group, name, window) => creation(alloc, group, name, window),
        Plan::Update(group, name, window) => update(alloc, group, name, window),
        Plan::Delete(group, name) => deletion(alloc, group, name),
        Plan::CreateGroup(name) => group_creation(alloc, name),
        Plan::DeleteGroup(name) => group_deletion(alloc, name),
    }
}
