//! How a step is added: what is in doubt is settled, the step is judged, room is made for it, and it is kept.
ghost use Rattle.std.specs.Prelude.{ℕ, ◌≡◌, ◌≤◌, None, OnOk, OnErr, IfErr};
ghost use Rattle.outside.specs.Faults.{Rose};
ghost use Rattle.sched_plain.specs.History.{History, ◌upon◌};
ghost use Rattle.sched_plain.specs.Legal.{MayFollow};
ghost use Rattle.sched_plain.specs.Moments.{moment, at_of};
ghost use Rattle.sched_plain.specs.Validity.{IsValid};
ghost use Rattle.sched_calls.specs.Serves.{Finds};
ghost use Rattle.book_parts.specs.Legal.{WantsNoMemory};
ghost use Rattle.book_parts.specs.Stands.{calendar};
ghost use Rattle.step_machine.specs.Ends.{IsEnd};
ghost use Rattle.step_keeper.specs.Carrying.{Carries, CarriesTo, Shows, same};
ghost use Rattle.durable_book.specs.Acts.{Puts, Refuses, IsCause, DiskRose};
ghost use Rattle.durable_book.specs.Doubts.{IsOwn, IsOwnDoubt, IsLeft};
ghost use Rattle.durable_book.specs.Faults.{IsOfEnding};
ghost use Rattle.durable_book.specs.Keeping.{IsJudged, IsRule, IsUnkept, IsDenied};

use crate::denial::Denial;
use sched_plain::Step;
use step_keeper::{DiskFault, KeepFault, Keeper};
use step_machine::{LegalFault, Machine};

/// Ends the doubt of a step, if one is in doubt: then the history is as it was, or has that step upon it. Where the disk fails
/// the doubt stays.
pub fn mend<K: Keeper>(keeper: &mut K) -> Result<(), DiskFault>
    ensures settled { OnOk result (Carries (K.held keeper.old) (K.stands keeper.new) (λ h. Finds h (K.doubt keeper.old))) }
    ensures torn { OnErr result (CarriesTo (K.held keeper.old) (K.held keeper.new) same) }
    ensures doubt { OnOk result (K.doubt keeper.new ≡ None) }
    ensures left { IsOwnDoubt (K.doubt keeper.old) → OnErr result (IsOwnDoubt (K.doubt keeper.new)) }
    ensures cause { OnErr result (Rose (K.faults keeper.old) (K.faults keeper.new)) }
    ensures early { Shows (K.held keeper.new) (λ h. moment h ≤ K.latest keeper.old) }
    ensures latest { K.latest keeper.new ≤ K.latest keeper.old }
    ensures faults { K.faults keeper.old ≤ K.faults keeper.new }
{
    keeper.settle()
}

/// Whether a step may follow; else the first rule that it breaks. Only a Zone and an Enter are judged with memory.
pub(crate) fn judge<M: Machine>(machine: &M, step: &Step) -> Result<(), Denial>
    requires { IsValid step.now }
    ensures follows { OnOk result ((h : History) → M.stands machine.now h → MayFollow calendar h step.now) }
    ensures may { OnOk result (M.may machine.now step.now) }
    ensures end_has_room { OnOk result (IsEnd step.now → M.has_room machine.now step.now) }
    ensures denied { IfErr result (λ denial. (h : History) → M.stands machine.now h → IsJudged step.now denial h) }
    ensures memory { WantsNoMemory step.now → IfErr result IsRule }
    ensures disk { IfErr result (λ denial. (n : ℕ) → DiskRose n n denial) }
{
    match machine.legal(step) {
        Ok(()) => Ok(()),
        Err(LegalFault::Why(why)) => Err(Denial::Rule(why)),
        Err(LegalFault::OutOfMemory) => Err(Denial::OutOfMemory),
    }
}

/// Keeps a step that may follow and has room.
pub(crate) fn put<K: Keeper>(keeper: &mut K, step: Step) -> Result<(), Denial>
    requires settled { K.doubt keeper.old ≡ None }
    requires valid { IsValid step }
    requires may { K.Book.may (K.book_of keeper.old) step }
    requires room { K.Book.has_room (K.book_of keeper.old) step }
    ensures kept { OnOk result (CarriesTo (K.stands keeper.old) (K.stands keeper.new) (λ h. step upon h)) }
    ensures stays { OnErr result (CarriesTo (K.stands keeper.old) (K.held keeper.new) same) }
    ensures cause { IfErr result (IsUnkept (K.full keeper.new step)) }
    ensures ends { IsEnd step → IfErr result IsOfEnding }
    ensures left { IsOwn step → IfErr result (λ denial. IsLeft denial (K.doubt keeper.new)) }
    ensures disk { IfErr result (DiskRose (K.faults keeper.old) (K.faults keeper.new)) }
    ensures latest { K.latest keeper.old ≤ at_of step → K.latest keeper.new ≤ at_of step }
    ensures faults { K.faults keeper.old ≤ K.faults keeper.new }
{
    match keeper.take(step) {
        Ok(()) => Ok(()),
        Err(KeepFault::Full { end, need }) => Err(Denial::Full { end, need }),
        Err(KeepFault::DiskFault) => Err(Denial::DiskFault),
    }
}

/// Makes room for a step that may follow, and keeps it.
fn place<K: Keeper>(keeper: &mut K, step: Step) -> Result<(), Denial>
    requires settled { K.doubt keeper.old ≡ None }
    requires valid { IsValid step }
    requires may { K.Book.may (K.book_of keeper.old) step }
    ensures kept { OnOk result (CarriesTo (K.stands keeper.old) (K.stands keeper.new) (λ h. step upon h)) }
    ensures stays { OnErr result (CarriesTo (K.stands keeper.old) (K.held keeper.new) same) }
    ensures cause { IfErr result (IsUnkept (K.full keeper.new step)) }
    ensures left { IsOwn step → IfErr result (λ denial. IsLeft denial (K.doubt keeper.new)) }
    ensures disk { IfErr result (DiskRose (K.faults keeper.old) (K.faults keeper.new)) }
    ensures latest { K.latest keeper.old ≤ at_of step → K.latest keeper.new ≤ at_of step }
    ensures faults { K.faults keeper.old ≤ K.faults keeper.new }
{
    if keeper.reserve(&step).is_err() {
        return Err(Denial::OutOfMemory);
    }
    put(keeper, step)
}

/// Adds a step, where no step is in doubt. Ok comes exactly where it may follow and was kept: then it is upon the history.
/// After a refusal the history is as it was; the step broke a rule, which is told, or may follow and has no room, or a call
/// of the disk failed, or memory was wanted. The keeper's moment is then at most that of the step, if it was before.
pub fn add<K: Keeper>(keeper: &mut K, step: Step) -> Result<(), Denial>
    requires settled { K.doubt keeper.old ≡ None }
    requires valid { IsValid step }
    ensures kept { OnOk result (CarriesTo (K.stands keeper.old) (K.stands keeper.new) (λ h. step upon h)) }
    ensures stays { OnErr result (CarriesTo (K.stands keeper.old) (K.held keeper.new) same) }
    ensures cause { IfErr result (λ denial. Shows (K.stands keeper.old) (IsCause (K.full keeper.new) step denial)) }
    ensures left { IsOwn step → IfErr result (λ denial. IsLeft denial (K.doubt keeper.new)) }
    ensures disk { IfErr result (DiskRose (K.faults keeper.old) (K.faults keeper.new)) }
    ensures latest { K.latest keeper.old ≤ at_of step → K.latest keeper.new ≤ at_of step }
    ensures faults { K.faults keeper.old ≤ K.faults keeper.new }
{
    if let Err(denial) = judge(keeper.book(), &step) {
        return Err(denial);
    }
    if let Err(denial) = place(keeper, step) {
        return Err(denial);
    }
    Ok(())
}

/// Settles what is in doubt, and adds a step that is the same whatever was found.
pub(crate) fn settle_and_add<K: Keeper>(keeper: &mut K, step: Step) -> Result<(), Denial>
    requires valid { IsValid step }
    requires later { K.latest keeper.old ≤ at_of step }
    ensures added { OnOk result (Carries (K.held keeper.old) (K.stands keeper.new) (Puts (K.doubt keeper.old) (λ h. step))) }
    ensures refused { IfErr result (λ denial. Carries (K.held keeper.old) (K.held keeper.new) (Refuses (K.doubt keeper.old) (IsDenied (K.full keeper.new) step denial))) }
    ensures left { IsOwn step → IsOwnDoubt (K.doubt keeper.old) → IfErr result (λ denial. IsLeft denial (K.doubt keeper.new)) }
    ensures disk { IfErr result (DiskRose (K.faults keeper.old) (K.faults keeper.new)) }
    ensures latest { K.latest keeper.new ≤ at_of step }
    ensures faults { K.faults keeper.old ≤ K.faults keeper.new }
{
    if let Err(_) = mend(keeper) {
        return Err(Denial::DiskFault);
    }
    if let Err(denial) = add(keeper, step) {
        return Err(denial);
    }
    Ok(())
}
