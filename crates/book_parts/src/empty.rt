//! The parts of the book of no steps.
ghost use Rattle.std.specs.Prelude.{IfOk};
ghost use Rattle.sched_plain.specs.History.{beginning};
ghost use Rattle.book_parts.specs.Stands.{Stands};

use crate::parts::Parts;
use date_table::DateTable;
use dead_letters::DeadLetters;
use ledger_rows::Ledger;
use policy_rules::Leases;
use sched_plain::{Moment, SHARDS};
use sched_rows::Rows;
use std::alloc::{AllocError, Global};
use token_shelf::Shelf;
use zone_occ::Zone;
use zone_shelf::ZoneShelf;

impl Parts {
    /// The parts that stand for the history of no steps.
    pub fn new(alloc: Global) -> Result<Parts, AllocError>
        ensures { IfOk result (λ parts. Stands parts beginning) }
    {
        Ok(Parts {
            moment: Moment(0),
            steps: 0,
            swept: [None; SHARDS as usize],
            leases: Leases::new(),
            utc: Zone::utc(),
            zones: ZoneShelf::new(alloc),
            rows: Rows::new(alloc)?,
            ledger: Ledger::new(alloc),
            shelf: Shelf::new(alloc),
            letters: DeadLetters::new(alloc),
            next: DateTable::new(alloc),
            finished: DateTable::new(alloc),
        })
    }
}
