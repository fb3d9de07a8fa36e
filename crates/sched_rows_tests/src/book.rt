//! Rows that are changed where they may be, and what was told of them.
ghost use Rattle.std.specs.Prelude.{◌≡◌, ◌≤◌, None, OnOk};
ghost use Rattle.sched_plain.specs.Groups.{row_fault};
ghost use Rattle.sched_rows.specs.State.{HasRoom};

use crate::writes::{Plan, write_of};
use sched_plain::{LAST_MOMENT, Moment, RowFault, Write};
use sched_rows::Rows;
use std::alloc::{AllocError, Global};
use std::test::Fail;

/// Why a change was not made.
#[derive(Debug, Clone, Copy, PartialEq, Eq)]
enum NotMade {
    Faulty(RowFault),
    /// Its moment is below that of the latest change, or above the last one, or what it removes does not live.
    OutOfTurn,
    OutOfMemory,
}

/// Makes room for a write that may be made.
fn prepare(rows: &mut Rows, at: u64, write: &Write) -> Result<(), NotMade>
    ensures allowed { OnOk result (row_fault rows.new.rows rows.new.groups write.now ≡ None) }
    ensures room { OnOk result (HasRoom rows.new write.now) }
    ensures moment { OnOk result (rows.new.latest ≤ at) }
    ensures last { OnOk result (at ≤ LAST_MOMENT) }
{
    if let Err(fault) = rows.check(write) {
        return Err(NotMade::Faulty(fault));
    }
    if at < rows.latest() || at > LAST_MOMENT {
        return Err(NotMade::OutOfTurn);
    }
    match rows.reserve(write) {
        Ok(()) => Ok(()),
        Err(_) => Err(NotMade::OutOfMemory),
    }
}

/// Makes a write where it may be made: it is checked, given room and applied.
fn make(rows: &mut Rows, at: u64, write: Write) -> Result<(), NotMade> {
    prepare(rows, at, &write)?;
    rows.apply(write, Moment(at));
    Ok(())
}

/// Removes a schedule that is finished, where it lives.
fn remove(rows: &mut Rows, at: u64, inc: u32) -> Result<(), NotMade> {
    if at < rows.latest() || !rows.lives(inc) {
        return Err(NotMade::OutOfTurn);
    }
    rows.remove(inc, Moment(at));
    Ok(())
}

/// Rows, and a line for each thing that was told of them.
#[derive(Drop)]
pub struct Book {
    pub alloc: Global,
    pub rows: Rows,
    pub told: String,
}

impl Book {
    /// No schedules, and nothing told.
    pub fn new(alloc: Global) -> Result<Book, AllocError> {
        let rows = Rows::new(alloc)?;
        Ok(Book {
            alloc,
            rows,
            told: String::new(alloc),
        })
    }

    /// Makes the write of a plan at a moment.
    pub fn change(&mut self, at: u64, plan: Plan) -> Result<(), Fail> {
        let write = write_of(self.alloc, plan)?;
        make(&mut self.rows, at, write)?;
        Ok(())
    }

    /// Makes plans at their moments, one after another.
    pub fn change_all(&mut self, plans: &[(u64, Plan)]) -> Result<(), Fail> {
        for (at, plan) in plans {
            self.change(*at, *plan)?;
        }
        Ok(())
    }

    /// Removes a schedule that is finished.
    pub fn remove(&mut self, at: u64, inc: u32) -> Result<(), Fail> {
        remove(&mut self.rows, at, inc)?;
        Ok(())
    }
}
