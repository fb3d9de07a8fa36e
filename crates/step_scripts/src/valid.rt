//! Whether a step is valid.
ghost use Rattle.std.specs.Prelude.{◌↔◌, IsTrue};
ghost use Rattle.std.specs.List.{All};
ghost use Rattle.sched_plain.specs.Validity.{IsIncarnation, IsMoment, IsNumber, IsPair, IsShard, IsStatus, IsValid};
ghost use Rattle.sched_plain.specs.declared.step.Step.TheVariants as steps;

use plain_words::{LAST_MOMENT, LEASE_SECONDS, LONGEST_ZONE, MOST_PAIRS, SHARDS};
use sched_plain::{Blob, Moment, Pair, Pairs, Reason, Step, Verdict, ZoneName};

/// The longest that a chosen moment lies behind its instant, in seconds.
const LONGEST_WAIT: u64 = 86_400;

fn is_pair(pair: &Pair) -> bool
    ensures { IsTrue result ↔ IsPair pair.now }
{
    pair.instant <= LAST_MOMENT
        && pair.instant <= pair.chosen
        && pair.chosen < pair.instant + LONGEST_WAIT
}

fn are_pairs(pairs: &[Pair]) -> bool
    ensures { IsTrue result ↔ All IsPair pairs.now }
{
    pairs.iter().all(|pair| is_pair(pair))
}

fn is_moment(moment: u64) -> bool
    ensures { IsTrue result → IsMoment moment }
{
    moment <= LAST_MOMENT
}

fn is_shard(shard: u8) -> bool
    ensures { IsTrue result → IsShard shard }
{
    shard < SHARDS
}

fn is_status(status: u16) -> bool
    ensures { IsTrue result → IsStatus status }
{
    status == 0 || 100 <= status && status <= 999
}

fn is_incarnation(inc: u32) -> bool
    ensures { IsTrue result → IsIncarnation inc }
{
    1 <= inc
}

fn is_number(number: u16) -> bool
    ensures { IsTrue result → IsNumber number }
{
    1 <= number
}

fn is_zone(at: Moment, name: &ZoneName, bytes: &Blob) -> bool
    ensures { IsTrue result → IsValid (steps.Zone at name.now bytes.now) }
{
    let _name = name.as_bytes();
    is_moment(at.0) && bytes.len() <= LONGEST_ZONE
}

fn is_enter(at: Moment, inc: u32, pairs: &Pairs) -> bool
    ensures { IsTrue result → IsValid (steps.Enter at inc pairs.now) }
{
    is_moment(at.0)
        && is_incarnation(inc)
        && 1 <= pairs.len()
        && pairs.len() <= MOST_PAIRS
        && are_pairs(pairs.as_slice())
}

fn is_lease(at: Moment, shard: u8, worker: u32, epoch: u64, until: u64) -> bool
    ensures { IsTrue result → IsValid (steps.Lease at shard worker epoch until) }
{
    let _ = (worker, epoch);
    is_moment(at.0) && is_shard(shard) && until == at.0 + LEASE_SECONDS
}

fn is_release(at: Moment, shard: u8, worker: u32, epoch: u64) -> bool
    ensures { IsTrue result → IsValid (steps.Release at shard worker epoch) }
{
    let _ = (worker, epoch);
    is_moment(at.0) && is_shard(shard)
}

fn is_begin(at: Moment, inc: u32, instant: u64, number: u16, epoch: u64) -> bool
    ensures { IsTrue result → IsValid (steps.Begin at inc instant number epoch) }
{
    let _ = epoch;
    is_moment(at.0) && is_incarnation(inc) && is_moment(instant) && is_number(number)
}

fn is_end(at: Moment, inc: u32, instant: u64, number: u16, verdict: Verdict, status: u16) -> bool
    ensures { IsTrue result → IsValid (steps.End at inc instant number verdict status) }
{
    let _ = verdict;
    is_moment(at.0)
        && is_incarnation(inc)
        && is_moment(instant)
        && is_number(number)
        && is_status(status)
}

fn is_close(at: Moment, inc: u32, instant: u64, reason: Reason) -> bool
    ensures { IsTrue result → IsValid (steps.Close at inc instant reason) }
{
    let _ = reason;
    is_moment(at.0) && is_incarnation(inc) && is_moment(instant)
}

fn is_complete(at: Moment, inc: u32) -> bool
    ensures { IsTrue result → IsValid (steps.Complete at inc) }
{
    is_moment(at.0) && is_incarnation(inc)
}

fn is_swept(at: Moment, shard: u8) -> bool
    ensures { IsTrue result → IsValid (steps.Swept at shard) }
{
    is_moment(at.0) && is_shard(shard)
}

/// Whether a step is valid. A Change is told to be none, since its write is not looked at.
pub(crate) fn is_valid(step: &Step) -> bool
    ensures { IsTrue result → IsValid step.now }
{
    match step {
        Step::Boot { at } => is_moment(at.0),
        Step::Zone { at, name, bytes } => is_zone(*at, name, bytes),
        Step::Change { .. } => false,
        Step::Enter { at, inc, pairs } => is_enter(*at, *inc, pairs),
        Step::Lease {
            at,
            shard,
            worker,
            epoch,
            until,
        } => is_lease(*at, *shard, *worker, *epoch, *until),
        Step::Release {
            at,
            shard,
            worker,
            epoch,
        } => is_release(*at, *shard, *worker, *epoch),
        Step::Begin {
            at,
            inc,
            instant,
            number,
            epoch,
        } => is_begin(*at, *inc, *instant, *number, *epoch),
        Step::End {
            at,
            inc,
            instant,
            number,
            verdict,
            status,
        } => is_end(*at, *inc, *instant, *number, *verdict, *status),
        Step::Close {
            at,
            inc,
            instant,
            reason,
        } => is_close(*at, *inc, *instant, *reason),
        Step::Complete { at, inc } => is_complete(*at, *inc),
        Step::Swept { at, shard } => is_swept(*at, *shard),
    }
}
