//! How many bytes of the file a step needs.
ghost use Rattle.std.specs.Prelude.{◌≡◌, ℕ, Some, ◌+◌, ◌-◌, ◌*◌, ◌^◌, ◌<◌, ◌≤◌, if◌then◌else◌, IfOk, IfErr};
ghost use Rattle.plain_words.specs.declared.limits.TheConstants.{SHARDS};
ghost use Rattle.sched_plain.specs.History.{History};
ghost use Rattle.sched_plain.specs.Leases.{holder, is_taking};
ghost use Rattle.sched_plain.specs.Ledger.{ledger_of};
ghost use Rattle.sched_plain.specs.Validity.{IsValid};
ghost use Rattle.ledger_rows.specs.Air.{airborne, live_in};
ghost use Rattle.step_codec.specs.declared.frame_buf.TheConstants.{LONGEST_FRAME};
ghost use Rattle.live_attempts.specs.CountLaws.{live_count};
ghost use Rattle.step_journal.specs.Needs.{aloft_after, told};
ghost use Rattle.step_journal.specs.Needs.{end_size};
ghost use Rattle.step_keeper.specs.declared.fault.KeepFault.TheVariants as faults;

use journal_file::Journal;
use sched_plain::{SHARDS, Step};
use step_keeper::KeepFault;
use step_machine::Machine;

/// How many bytes the record of an End has, with its gate.
const END_SIZE: u64 = 31;

/// How many attempts a Lease with this epoch loses: those of its shard, where it is a taking.
fn lost_by<M: Machine>(book: &M, shard: u8, epoch: u64) -> u64
    requires { shard < SHARDS }
    ensures { (h : History) → M.stands book.now h
        → result ≡ (if is_taking (holder h shard) epoch then live_in (Some shard) (airborne (ledger_of h)) else 0) }
{
    if 0 < epoch && book.holder(shard).epoch == epoch - 1 {
        book.live(Some(shard))
    } else {
        0
    }
}

/// How many attempts are in the air once the step is taken.
pub fn aloft_after<M: Machine>(book: &M, step: &Step) -> u64
    requires valid { IsValid step.now }
    requires few { (h : History) × M.stands book.now h × (live_count h < 2 ^ 63) }
    ensures { (h : History) → M.stands book.now h → result ≡ aloft_after h step.now }
{
    let live = book.live(None);
    match step {
        Step::Boot { .. } => 0,
        Step::Begin { .. } => live + 1,
        Step::End { .. } => live.saturating_sub(1),
        Step::Lease { shard, epoch, .. } => live.saturating_sub(lost_by(book, *shard, *epoch)),
        _ => live,
    }
}

/// The bytes to be kept for the Ends of so many attempts behind a frame of so many bytes and the next gate; or that the file has
/// no room for all that.
pub(crate) fn room_behind(journal: &Journal, frame: usize, aloft: u64) -> Result<u64, KeepFault>
    requires { frame ≤ LONGEST_FRAME }
    ensures reserve { IfOk result (λ reserve. reserve ≡ end_size * aloft) }
    ensures fits { IfOk result (λ reserve. journal.now.end + (frame + 1 + reserve) ≤ journal.now.limit) }
    ensures small { IfOk result (λ reserve. frame + 1 + reserve < 2 ^ 64) }
    ensures full { IfErr result (λ fault. fault ≡ faults.Full journal.now.end (told (frame + 1 + end_size * aloft))) }
    ensures short { IfErr result (λ fault. journal.now.limit < journal.now.end + (frame + 1 + end_size * aloft)) }
{
    let end = journal.end();
    let need = frame as u128 + 1 + u128::from(END_SIZE) * u128::from(aloft);
    if u128::from(journal.limit()) < u128::from(end) + need {
        let need = need.min(u128::from(u64::MAX)) as u64;
        return Err(KeepFault::Full { end, need });
    }
    Ok(END_SIZE * aloft)
}
