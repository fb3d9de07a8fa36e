ghost use Rattle.std.specs.Prelude.{◌≡◌, ◌≢◌, ◌<◌, ℕ, List, Err, OnOk, IfOk};
ghost use Rattle.std.specs.Option.{option_map, option_copied};
ghost use Rattle.plain_words.specs.Lists.{nth};
ghost use Rattle.sched_plain.specs.declared.entry.Filed.{Filed};
ghost use Rattle.sched_plain.specs.declared.row.Row.{Row};
ghost use Rattle.sched_plain.specs.declared.step.Step.{Step};
ghost use Rattle.sched_plain.specs.History.{History, ◌upon◌, count};
ghost use Rattle.sched_plain.specs.Moments.{moment};
ghost use Rattle.sched_plain.specs.Changes.{changes_of};
ghost use Rattle.sched_plain.specs.Rows.{rows_of, content_at};
ghost use Rattle.sched_plain.specs.Validity.{IsValid, AllValid};
ghost use Rattle.sched_plain.specs.Seen.{seen};
ghost use Rattle.sched_plain.specs.Work.{work};
ghost use Rattle.sched_plain.specs.Leases.{holder};
ghost use Rattle.sched_plain.specs.Ledger.{ledger_of};
ghost use Rattle.sched_plain.specs.Entries.{filed};
ghost use Rattle.sched_plain.specs.Legal.{why, IsLegal, MayFollow};
ghost use Rattle.sched_plain.specs.Report.{counts, last_swept};
ghost use Rattle.sched_calls.specs.Replies.{answer_to};
ghost use Rattle.sched_calls.specs.Serves.{wanted};
ghost use Rattle.ledger_rows.specs.Air.{live_in, airborne};
ghost use Rattle.book_parts.specs.Stands.{calendar};
ghost use Rattle.book_parts.specs.Legal.{Judges, WantsNoMemory};
ghost use Rattle.write_plans.specs.Planning.{IsPlanned};
ghost use Rattle.step_machine.specs.Ends.{IsEnd};
ghost use Rattle.step_machine.specs.Names.{row_names};

use book_parts::LegalFault;
use plain_words::Items;
use sched_calls::{Read, Refusal, Reply};
use sched_plain::{Counts, Entry, Holder, Moment, Name, SHARDS, Schedule, Step, Work, Write};
use std::alloc::AllocError;
use write_plans::Plan;

/// A machine that stands for a history of steps without showing it. It judges the next step, takes it, and answers what the
/// history says, under the calendar of real time zones.
pub trait Machine {
    /// The machine stands for this history.
    ghost stands: { Self → History → Type 0 };

    /// The step may follow whatever the machine stands for.
    ghost may: { Self → Step → Type 0 };

    /// There is room for the step, and for the End of each attempt that has none.
    ghost has_room: { Self → Step → Type 0 };

    /// Ok exactly where the step may follow, else the first rule that it breaks, with its values. An End has room where it
    /// may follow, and only a Zone and an Enter are judged with memory, so that no verdict is lost.
    fn legal(&self, step: &Step) -> Result<(), LegalFault>
        requires valid { IsValid step.now }
        ensures why { (h : History) → stands self.now h → Judges result (why calendar h step.now) }
        ensures may { OnOk result (may self.now step.now) }
        ensures end_has_room { OnOk result (IsEnd step.now → has_room self.now step.now) }
        ensures memory { WantsNoMemory step.now → result ≢ Err LegalFault.OutOfMemory };

    /// Makes room for a step that may follow, and for the End of each attempt that has none behind it. It fails only for want
    /// of memory, also where 2^62 steps are counted, and the history is the same either way. There is room for one step at a
    /// time, beside that for Ends.
    fn reserve(&mut self, step: &Step) -> Result<(), AllocError>
        requires valid { IsValid step.now }
        requires may { may self.old step.now }
        ensures stands { (h : History) → stands self.old h → stands self.new h }
        ensures may { (s : Step) → may self.old s → may self.new s }
        ensures room { OnOk result (has_room self.new step.now) };

    /// Takes a step that may follow, without memory.
    fn apply(&mut self, step: Step)
        requires valid { IsValid step }
        requires may { may self.old step }
        requires room { has_room self.old step }
        ensures { (h : History) → stands self.old h → stands self.new (step upon h) };

    /// The moment of the last step, 0 where there is none.
    fn moment(&self) -> Moment
        ensures { (h : History) → stands self.now h → result.0 ≡ moment h };

    /// How many steps the history has.
    fn length(&self) -> u64
        ensures { (h : History) → stands self.now h → result ≡ count h };

    /// The next work of a shard at a moment.
    fn next_work(&self, shard: u8, now: Moment) -> Work
        requires { shard < SHARDS }
        ensures { (h : History) → stands self.now h → result ≡ work (seen calendar h) shard now.0 };

    /// Who last took a shard, its epoch, and until when it is held, 0 where it is free.
    fn holder(&self, shard: u8) -> Holder
        requires { shard < SHARDS }
        ensures { (h : History) → stands self.now h → result ≡ holder h shard };

    /// When a shard was last swept since the last Boot.
    fn last_swept(&self, shard: u8) -> Option<Moment>
        requires { shard < SHARDS }
        ensures { (h : History) → stands self.now h → result ≡ last_swept h shard };

    /// The entry of an occurrence, its instant in seconds since 1970 UTC; None where it has none.
    fn entry(&self, inc: u32, instant: u64) -> Option<Entry>
        ensures { (h : History) → stands self.now h → result ≡ option_map {T = Filed} (λ filed. filed.entry) (filed (ledger_of h) inc instant) };

    /// How many attempts are in the air, of a shard where one is named.
    fn live(&self, shard: Option<u8>) -> u64
        ensures { (h : History) → stands self.now h → result ≡ live_in shard (airborne (ledger_of h)) };

    /// The content of an incarnation at an instant, in seconds since 1970 UTC; None where its spans have not the instant, or
    /// none was created with this number.
    fn content(&self, inc: u32, instant: u64) -> Option<&Schedule>
        ensures { (h : History) → stands self.now h → option_copied result ≡ content_at (rows_of (changes_of h)) inc instant };

    /// Group and name of an incarnation; None exactly where none was created with this number.
    fn named(&self, inc: u32) -> Option<(&Name, &Name)>
        ensures { (h : History) → stands self.now h → option_map {U = List ℕ × List ℕ} (λ names. (names.0.now, names.1.now)) result ≡ option_map {T = Row} row_names (nth (rows_of (changes_of h)) inc) };

    /// The instants of the Enter that is wanted for an incarnation at a moment: the first that have no entry, at most 256. It
    /// fails only for want of memory.
    fn wanted(&self, inc: u32, now: Moment) -> Result<Items<u64>, AllocError>
        ensures { (h : History) → stands self.now h → IfOk result (λ instants. instants ≡ wanted calendar h inc now.0) };

    /// What is to be done with a write at a moment that is no earlier than the machine's: it was answered before, it is refused,
    /// it wants a zone or an Enter first, or its Change is ready. It fails only for want of memory.
    fn plan_write(&self, write: &Write, now: Moment) -> Result<Plan, AllocError>
        ensures { (h : History) → stands self.now h → IfOk result (IsPlanned calendar h now.0 write.now) };

    /// The answer to a read: the first rule that it breaks, or what it shows. It fails only for want of memory.
    fn reply(&self, read: &Read) -> Result<Result<Reply, Refusal>, AllocError>
        ensures { (h : History) → stands self.now h → IfOk result (λ answer. answer ≡ answer_to h read.now) };

    /// The numbers of a report at a moment.
    fn counts(&self, now: Moment) -> Counts
        ensures { (h : History) → stands self.now h → result ≡ counts h now.0 };

    /// What may follow a machine may follow each history that it stands for.
    ghost lawful: { (m : Self) (h : History) (s : Step) → stands m h → may m s → MayFollow calendar h s };

    /// What may follow each history that a machine stands for may follow the machine.
    ghost follows: { (m : Self) (s : Step) → ((h : History) → stands m h → MayFollow calendar h s) → may m s };

    /// A machine stands for legal histories alone.
    ghost legal_history: { (m : Self) (h : History) → stands m h → IsLegal calendar h };

    /// Their steps are valid.
    ghost valid_history: { (m : Self) (h : History) → stands m h → AllValid h };
}
