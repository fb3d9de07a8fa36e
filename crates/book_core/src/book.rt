//! The machine of indexes.
ghost use Rattle.std.specs.Prelude.{◌≡◌, ℕ, List, IfOk};
ghost use Rattle.std.specs.Option.{option_map};
ghost use Rattle.plain_words.specs.Lists.{nth};
ghost use Rattle.sched_plain.specs.declared.row.Row.{Row};
ghost use Rattle.sched_plain.specs.History.{History, beginning};
ghost use Rattle.sched_plain.specs.Changes.{changes_of};
ghost use Rattle.sched_plain.specs.Rows.{rows_of};
ghost use Rattle.book_parts.specs.Stands.{Stands as PartsStand};
ghost use Rattle.step_machine.specs.Names.{row_names};
ghost use Rattle.book_core.specs.State.{Stands};

use crate::room::reserve;
use crate::taking::take;
use book_counts::counts;
use book_parts::{LegalFault, Parts};
use live_attempts::live_attempts_are_few;
use plain_words::Items;
use read_replies::reply;
use sched_calls::{Read, Refusal, Reply};
use sched_plain::{Counts, Entry, Holder, Moment, Name, Schedule, Step, Token, Work, Write};
use std::alloc::{AllocError, Global};
use std::marker::Model;
use step_machine::Machine;
use write_plans::{Plan, plan_write};

/// The machine made of indexes: it holds what it reads of the history, part by part, and no step.
#[derive(Drop)]
pub struct Book {
    alloc: Global,
    parts: Parts,
    spare: Option<(Token, Write)>,
}

impl Model for Book {
    ghost use Rattle.book_core.specs.State.{Booked, IsSound};

    ghost Value = { Booked };

    ghost view = { λ b. record { parts = b.parts; spare = b.spare } };

    ghost invariant = { λ b. IsSound b.parts };
}

impl Book {
    /// The book of the empty history.
    pub fn new(alloc: Global) -> Result<Book, AllocError>
        ensures { IfOk result (λ book. Stands book beginning) }
    {
        Ok(Book {
            alloc,
            parts: Parts::new(alloc)?,
            spare: None,
        })
    }
}

/// Group and name of an incarnation.
fn named(parts: &Parts, inc: u32) -> Option<(&Name, &Name)>
    ensures { (h : History) → PartsStand parts.now h → option_map {U = List ℕ × List ℕ} (λ names. (names.0.now, names.1.now)) result ≡ option_map {T = Row} row_names (nth (rows_of (changes_of h)) inc) }
{
    match parts.rows.row(inc) {
        Some(row) => Some((row.group(), row.name())),
        None => None,
    }
}

impl Machine for Book {
    ghost use Rattle.book_core.specs.State.{Stands, May, HasRoom};

    ghost stands = { Stands };

    ghost may = { May };

    ghost has_room = { HasRoom };

    fn legal(&self, step: &Step) -> Result<(), LegalFault> {
        self.parts.legal(self.alloc, step)
    }

    fn reserve(&mut self, step: &Step) -> Result<(), AllocError> {
        reserve(&mut self.parts, &mut self.spare, step)
    }

    fn apply(&mut self, step: Step) {
        live_attempts_are_few();
        let spare = self.spare.take();
        take(&mut self.parts, spare, step);
    }

    fn moment(&self) -> Moment {
        self.parts.moment()
    }

    fn length(&self) -> u64 {
        self.parts.length()
    }

    fn next_work(&self, shard: u8, now: Moment) -> Work {
        self.parts.next_work(shard, now)
    }

    fn holder(&self, shard: u8) -> Holder {
        self.parts.holder(shard)
    }

    fn last_swept(&self, shard: u8) -> Option<Moment> {
        self.parts.last_swept(shard)
    }

    fn entry(&self, inc: u32, instant: u64) -> Option<Entry> {
        self.parts.entry(inc, instant)
    }

    fn live(&self, shard: Option<u8>) -> u64 {
        self.parts.live(shard)
    }

    fn content(&self, inc: u32, instant: u64) -> Option<&Schedule> {
        self.parts.content(inc, instant)
    }

    fn named(&self, inc: u32) -> Option<(&Name, &Name)> {
        named(&self.parts, inc)
    }

    fn wanted(&self, inc: u32, now: Moment) -> Result<Items<u64>, AllocError> {
        self.parts.wanted(self.alloc, inc, now)
    }

    fn plan_write(&self, write: &Write, now: Moment) -> Result<Plan, AllocError> {
        plan_write(&self.parts, self.alloc, write, now)
    }

    fn reply(&self, read: &Read) -> Result<Result<Reply, Refusal>, AllocError> {
        reply(&self.parts, self.alloc, read)
    }

    fn counts(&self, now: Moment) -> Counts {
        counts(&self.parts, now)
    }

    ghost lawful = { λ m h s stands may. may h stands };

    ghost follows = { λ m s may. may };

    ghost legal_history = { λ m h stands. stands.parts.legal };

    ghost valid_history = { λ m h stands. stands.valid };
}
