//! The keeper in memory.
ghost use Rattle.std.specs.Prelude.{◌≡◌, ◌≤◌};
ghost use Rattle.sched_plain.specs.History.{History};
ghost use Rattle.sched_plain.specs.Moments.{moment};

use crate::fault::{DiskFault, KeepFault};
use crate::keeper::Keeper;
use sched_plain::{Moment, Step};
use std::alloc::AllocError;
use step_machine::Machine;
use step_rules::at_of;

/// A machine that keeps its steps in memory alone: nothing stays when it ends, and only memory can be wanted.
#[derive(Drop)]
pub struct MemoryKeeper<M: Machine> {
    book: M,
    latest: Moment,
}

impl<M: Machine> MemoryKeeper<M> {
    /// The keeper of a machine. Its moment is that of the machine's last step.
    pub fn new(book: M) -> MemoryKeeper<M>
        ensures book { result.book ≡ book }
        ensures latest { (h : History) → M.stands book h → result.latest.0 ≡ moment h }
    {
        let latest = book.moment();
        MemoryKeeper { book, latest }
    }
}

impl<M: Machine> Keeper for MemoryKeeper<M> {
    ghost use Rattle.std.specs.Prelude.{ℕ, None, ◌≤◌, refl};
    ghost use Rattle.step_keeper.specs.Carrying.{Start};
    ghost use Rattle.sched_plain.specs.Moments.{moment};

    type Book = M;

    ghost book_of = { λ keeper. keeper.book };

    ghost stands = { λ keeper since h. M.stands keeper.book h × (moment h ≤ keeper.latest.0) };

    ghost held = { λ keeper since h. M.stands keeper.book h × (moment h ≤ keeper.latest.0) };

    ghost doubt = { λ keeper. None };

    ghost latest = { λ keeper. keeper.latest.0 };

    ghost full = { λ keeper step end need. ⊥ };

    ghost faults = { λ keeper. 0 };

    fn book(&self) -> &M {
        &self.book
    }

    fn moment(&self) -> Moment {
        self.latest
    }

    fn reserve(&mut self, step: &Step) -> Result<(), AllocError> {
        self.book.reserve(step)
    }

    fn settle(&mut self) -> Result<(), DiskFault> {
        Ok(())
    }

    fn take(&mut self, step: Step) -> Result<(), KeepFault> {
        self.latest = at_of(&step);
        self.book.apply(step);
        Ok(())
    }

    ghost holds = { λ keeper since h stands. stands };

    ghost settled = { λ keeper since h stands. refl };

    ghost early = { λ keeper since h stands. stands.1 };
}
