ghost use Rattle.std.specs.Prelude.{◌≡◌, ◌≤◌, ℕ, None, OnOk, OnErr, IfErr};
ghost use Rattle.std.specs.Prelude.{Option as Perhaps};
ghost use Rattle.outside.specs.Faults.{Rose};
ghost use Rattle.sched_plain.specs.declared.step.Step.{Step};
ghost use Rattle.sched_plain.specs.History.{History, ◌upon◌};
ghost use Rattle.sched_plain.specs.Moments.{moment, at_of};
ghost use Rattle.sched_plain.specs.Validity.{IsValid};
ghost use Rattle.sched_calls.specs.Serves.{Finds};
ghost use Rattle.step_machine.specs.Ends.{IsEnd};
ghost use Rattle.step_keeper.specs.declared.fault.KeepFault.TheVariants as whys;
ghost use Rattle.step_keeper.specs.Carrying.{Start, Carries, CarriesTo, Shows, same};
ghost use Rattle.step_keeper.specs.Faults.{Cause, Leaves};

use crate::fault::{DiskFault, KeepFault};
use sched_plain::{Moment, Step};
use std::alloc::AllocError;
use step_machine::Machine;

/// What keeps the steps of one history and lends the machine that stands for it.
pub trait Keeper {
    /// The machine that is lent.
    type Book: Machine;

    /// The machine.
    ghost book_of: { Self → Self.Book };

    /// The keeper stands for a history since a start, and no step is in doubt.
    ghost stands: { Self → Start Self → History → Type 0 };

    /// The same, but perhaps a step is in doubt.
    ghost held: { Self → Start Self → History → Type 0 };

    /// The step in doubt.
    ghost doubt: { Self → Perhaps Step };

    /// The moment of the keeper: no step is later, neither one that stands nor one in doubt.
    ghost latest: { Self → ℕ };

    /// There is no room for a step in a file that ends at the first number: the second is what it needs.
    ghost full: { Self → Step → ℕ → ℕ → Type 0 };

    /// How many calls of the disk have failed; a count that has come to the greatest u64 stays there.
    ghost faults: { Self → ℕ };

    /// The machine, lent.
    fn book(&self) -> &Self::Book
        ensures book { result.now ≡ book_of self.now }
        ensures stands { Shows (held self.now) (Self.Book.stands result.now) };

    /// The moment of the keeper.
    fn moment(&self) -> Moment
        ensures { result.0 ≡ latest self.now };

    /// Makes room for a step that may follow, where no step is in doubt. It fails only for want of memory, and the history is the
    /// same either way.
    fn reserve(&mut self, step: &Step) -> Result<(), AllocError>
        requires settled { doubt self.old ≡ None }
        requires valid { IsValid step.now }
        requires may { Self.Book.may (book_of self.old) step.now }
        ensures stands { CarriesTo (stands self.old) (stands self.new) same }
        ensures may { (s : Step) → Self.Book.may (book_of self.old) s → Self.Book.may (book_of self.new) s }
        ensures room { OnOk result (Self.Book.has_room (book_of self.new) step.now) }
        ensures doubt { doubt self.new ≡ None }
        ensures latest { latest self.new ≡ latest self.old }
        ensures faults { faults self.new ≡ faults self.old };

    /// Ends the doubt of a step, if one is in doubt: then the history is as it was, or has that step upon it. Where the disk
    /// fails the doubt stays.
    fn settle(&mut self) -> Result<(), DiskFault>
        ensures settled { OnOk result (Carries (held self.old) (stands self.new) (λ h. Finds h (doubt self.old))) }
        ensures torn { OnErr result (CarriesTo (held self.old) (held self.new) same) }
        ensures doubt { OnOk result (doubt self.new ≡ None) }
        ensures stays { OnErr result (doubt self.new ≡ doubt self.old) }
        ensures cause { OnErr result (Rose (faults self.old) (faults self.new)) }
        ensures latest { latest self.new ≤ latest self.old }
        ensures faults { faults self.old ≤ faults self.new };

    /// Keeps a step that may follow, where no step is in doubt, and takes it: it stands upon the history, or the history is as it
    /// was. Only where a call of the disk failed is it perhaps in doubt. Takes no memory. An End is never Full: its Begin left
    /// room for it.
    fn take(&mut self, step: Step) -> Result<(), KeepFault>
        requires settled { doubt self.old ≡ None }
        requires valid { IsValid step }
        requires may { Self.Book.may (book_of self.old) step }
        requires room { Self.Book.has_room (book_of self.old) step }
        ensures taken { OnOk result (CarriesTo (stands self.old) (stands self.new) (λ h. step upon h)) }
        ensures refused { OnErr result (CarriesTo (stands self.old) (held self.new) same) }
        ensures doubt { OnOk result (doubt self.new ≡ None) }
        ensures left { IfErr result (λ fault. Leaves fault step (doubt self.new)) }
        ensures cause { IfErr result (Cause (full self.new step) (faults self.old) (faults self.new)) }
        ensures ends { IsEnd step → IfErr result (λ fault. fault ≡ whys.DiskFault) }
        ensures latest { latest self.old ≤ at_of step → latest self.new ≤ at_of step }
        ensures faults { faults self.old ≤ faults self.new };

    /// What stands for a history without a doubt stands for it.
    ghost holds: { (k : Self) (since : Start Self) (h : History) → stands k since h → held k since h };

    /// Where it stands for a history without a doubt no step is in doubt.
    ghost settled: { (k : Self) (since : Start Self) (h : History) → stands k since h → doubt k ≡ None };

    /// No history that it stands for is later than its moment.
    ghost early: { (k : Self) (since : Start Self) (h : History) → held k since h → moment h ≤ latest k };
}
