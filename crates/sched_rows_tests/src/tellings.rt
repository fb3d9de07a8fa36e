//! What is told of rows, a line for each telling.
use crate::book::Book;
use crate::writes::{Plan, name_of, write_of};
use sched_plain::{Moment, Name, RowFault, Write};
use sched_rows::Rows;
use std::alloc::{AllocError, Global};
use std::test::Fail;

/// The living incarnations, of a group where one is named.
fn living(alloc: Global, rows: &Rows, group: Option<&Name>) -> Result<Vec<u32>, AllocError> {
    let mut numbers = Vec::new(alloc);
    let mut after = 0;
    for _ in 0..rows.created_count() {
        let Some(inc) = rows.next_living(group, after) else {
            break;
        };
        numbers.push(inc)?;
        after = inc;
    }
    Ok(numbers)
}

/// The least incarnation above one that a write touches.
fn next_touched(rows: &Rows, write: &Write, after: u32) -> Option<u32> {
    rows.next_touched(write, after)
}

/// The incarnations that a write touches.
fn touched(alloc: Global, rows: &Rows, write: &Write) -> Result<Vec<u32>, Fail> {
    let mut numbers = Vec::new(alloc);
    let mut after = 0;
    for _ in 0..rows.created_count() {
        let Some(inc) = next_touched(rows, write, after) else {
            break;
        };
        numbers.push(inc)?;
        after = inc;
    }
    Ok(numbers)
}

/// The incarnations that a plan touches.
fn touched_by(alloc: Global, rows: &Rows, plan: Plan) -> Result<Vec<u32>, Fail> {
    let write = write_of(alloc, plan)?;
    touched(alloc, rows, &write)
}

/// What speaks against a write.
fn fault_of(rows: &Rows, write: Write) -> Option<RowFault> {
    rows.check(&write).err()
}

/// The window of an incarnation's content at an instant.
fn window_at(rows: &Rows, inc: u32, instant: u64) -> Option<u16> {
    match rows.revision_at(inc, instant) {
        Some(content) => Some(content.window),
        None => None,
    }
}

/// The incarnation that lives under a group and a name.
fn live(alloc: Global, rows: &Rows, group: &str, name: &str) -> Result<Option<u32>, Fail> {
    let group = name_of(alloc, group)?;
    let name = name_of(alloc, name)?;
    Ok(rows.live(&group, &name))
}

/// When a group was created.
fn group_since(alloc: Global, rows: &Rows, name: &str) -> Result<Option<Moment>, Fail> {
    let name = name_of(alloc, name)?;
    Ok(rows.group(&name))
}

/// What is seen of an incarnation: when it was created and changed last, whether it lives, how many contents it had,
/// and the window of the current one.
#[derive(Debug, Clone, Copy)]
struct Seen {
    created: u64,
    changed: u64,
    lives: bool,
    contents: usize,
    window: Option<u16>,
}

fn row_of(rows: &Rows, inc: u32) -> Option<Seen> {
    match rows.row(inc) {
        None => None,
        Some(row) => Some(Seen {
            created: row.created().0,
            changed: row.changed().0,
            lives: row.lives(),
            contents: row.revisions().len(),
            window: row.current().map(|content| content.window),
        }),
    }
}

impl Book {
    /// What speaks against a plan.
    pub fn tell_fault(&mut self, plan: Plan) -> Result<(), Fail> {
        let write = write_of(self.alloc, plan)?;
        let fault = fault_of(&self.rows, write);
        writeln!(self.told, "fault {fault:?}")?;
        Ok(())
    }

    /// The incarnations that a plan touches.
    pub fn tell_touched(&mut self, plan: Plan) -> Result<(), Fail> {
        let numbers = touched_by(self.alloc, &self.rows, plan)?;
        writeln!(self.told, "touched {numbers:?}")?;
        Ok(())
    }

    /// All incarnations that live.
    pub fn tell_living(&mut self) -> Result<(), Fail> {
        let numbers = living(self.alloc, &self.rows, None)?;
        writeln!(self.told, "living {numbers:?}")?;
        Ok(())
    }

    /// Those of a group.
    pub fn tell_living_in(&mut self, group: &str) -> Result<(), Fail> {
        let name = name_of(self.alloc, group)?;
        let numbers = living(self.alloc, &self.rows, Some(&name))?;
        writeln!(self.told, "living in {group} {numbers:?}")?;
        Ok(())
    }

    /// The incarnation that lives under a group and a name.
    pub fn tell_live(&mut self, group: &str, name: &str) -> Result<(), Fail> {
        let inc = live(self.alloc, &self.rows, group, name)?;
        writeln!(self.told, "live {group}/{name} {inc:?}")?;
        Ok(())
    }

    /// When a group was created.
    pub fn tell_group(&mut self, name: &str) -> Result<(), Fail> {
        let since = group_since(self.alloc, &self.rows, name)?;
        writeln!(self.told, "group {name} {since:?}")?;
        Ok(())
    }

    /// The row of an incarnation.
    pub fn tell_row(&mut self, inc: u32) -> Result<(), Fail> {
        let row = row_of(&self.rows, inc);
        writeln!(self.told, "row {inc} {row:?}")?;
        Ok(())
    }

    /// The window of an incarnation's content at an instant.
    pub fn tell_window(&mut self, inc: u32, instant: u64) -> Result<(), Fail> {
        let window = window_at(&self.rows, inc, instant);
        writeln!(self.told, "window {inc} at {instant} {window:?}")?;
        Ok(())
    }

    /// How many schedules and groups there are, how many incarnations were created, and the moment of the latest change.
    pub fn tell_totals(&mut self) -> Result<(), Fail> {
        let living = self.rows.living_count();
        let groups = self.rows.group_count();
        let created = self.rows.created_count();
        let latest = self.rows.latest();
        writeln!(self.told, "{living} of {created} in {groups} at {latest}")?;
        Ok(())
    }
}
