//! Rows of many schedules, write by write.
ghost use Rattle.std.specs.Prelude.{◌≡◌, ◌≤◌, None, OnOk};
ghost use Rattle.sched_plain.specs.Groups.{row_fault};
ghost use Rattle.sched_rows.specs.State.{HasRoom};

use anyhow::bail;
use sched_plain::{
    Civil, Expr, LAST_MOMENT, Moment, Name, Policy, Schedule, Text, Write, ZoneName,
};
use sched_rows::Rows;
use std::alloc::{AllocError, Global};

/// How many schedules stand in the second group.
const IN_SECOND: u64 = 100;

pub fn name_of(alloc: Global, text: &str) -> anyhow::Result<Name> {
    match Name::read(alloc, text.as_bytes()) {
        Ok(name) => Ok(name),
        Err(_) => bail!("no name"),
    }
}

fn zone_of(alloc: Global, text: &str) -> anyhow::Result<ZoneName> {
    match ZoneName::read(alloc, text.as_bytes()) {
        Ok(name) => Ok(name),
        Err(_) => bail!("no name of a zone"),
    }
}

pub fn text_of(alloc: Global, text: &str) -> Result<Text, AllocError> {
    Ok(Text::from_string(String::from_str(alloc, text)?))
}

/// A content. Texts that rows do not look at are empty.
fn content(alloc: Global) -> anyhow::Result<Schedule> {
    let zone = zone_of(alloc, "UTC")?;
    let target = text_of(alloc, "http://127.0.0.1:9000/hook")?;
    Ok(Schedule {
        description: Text::from_string(String::new(alloc)),
        text: Text::from_string(String::new(alloc)),
        expr: Expr::At(Civil {
            year: 2030,
            month: 1,
            day: 1,
            hour: 0,
            minute: 0,
            second: 0,
        }),
        zone,
        start: None,
        finish: None,
        enabled: true,
        delete_after: false,
        window: 0,
        policy: Policy {
            retries: 0,
            age: 60,
        },
        target,
        role: Text::from_string(String::new(alloc)),
        queue: None,
        input: None,
    })
}

/// Makes room for a write that may be made.
fn prepare(rows: &mut Rows, write: &Write) -> anyhow::Result<()>
    ensures allowed { OnOk result (row_fault rows.new.rows rows.new.groups write.now ≡ None) }
    ensures room { OnOk result (HasRoom rows.new write.now) }
    ensures last { OnOk result (rows.new.latest ≤ LAST_MOMENT) }
{
    if rows.check(write).is_err() || rows.latest() > LAST_MOMENT {
        bail!("not to be made");
    }
    rows.reserve(write)?;
    Ok(())
}

/// Makes a write at the moment of the latest one.
fn make(rows: &mut Rows, write: Write) -> anyhow::Result<()> {
    prepare(rows, &write)?;
    let at = Moment(rows.latest());
    rows.apply(write, at);
    Ok(())
}

fn creation(alloc: Global, group: &str, name: &str) -> anyhow::Result<Write> {
    let group = name_of(alloc, group)?;
    let name = name_of(alloc, name)?;
    let content = content(alloc)?;
    Ok(Write::CreateSchedule {
        group,
        name,
        token: None,
        content,
    })
}

/// Creates so many schedules of a group.
fn fill(alloc: Global, rows: &mut Rows, group: &str, count: u64) -> anyhow::Result<()> {
    for number in 0..count {
        let name = format!(in alloc; "s{number:05}")?;
        make(rows, creation(alloc, group, name.as_str())?)?;
    }
    Ok(())
}

/// Rows of so many schedules of one group, and of some of a group behind it.
pub fn filled(alloc: Global, count: u64) -> anyhow::Result<Rows> {
    let mut rows = Rows::new(alloc)?;
    fill(alloc, &mut rows, "default", count)?;
    let name = name_of(alloc, "second")?;
    make(&mut rows, Write::CreateGroup { name, token: None })?;
    fill(alloc, &mut rows, "second", IN_SECOND)?;
    Ok(rows)
}

/// Rows of so many groups beside the one that is there from the start.
pub fn grouped(alloc: Global, count: u64) -> anyhow::Result<Rows> {
    let mut rows = Rows::new(alloc)?;
    for number in 0..count {
        let text = format!(in alloc; "s{number:05}")?;
        let name = name_of(alloc, text.as_str())?;
        make(&mut rows, Write::CreateGroup { name, token: None })?;
    }
    Ok(rows)
}
