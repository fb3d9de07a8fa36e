//! A step taken upon the parts, by the function of its kind.
ghost use Rattle.std.specs.Prelude.{None};
ghost use Rattle.sched_plain.specs.declared.step.Step.TheVariants as steps;
ghost use Rattle.book_parts.specs.Stands.{Takes};
ghost use Rattle.book_writes.specs.Keeping.{Keeper};
ghost use Rattle.book_core.specs.State.{CanTake};

use book_completions::completes_find_their_parts;
use book_enters::enters_find_their_parts;
use book_parts::Parts;
use live_attempts::live_attempts_are_few;
use plain_words::{Blob, Token, Verdict, ZoneName};
use sched_plain::{Moment, Pairs, Reason, Step, Write};
use step_needs::{
    begins_find_their_parts, changes_find_their_parts, closes_find_their_parts,
    ends_find_their_parts, room_is_all_that_is_left, tenures_find_their_parts,
};

fn boot(parts: &mut Parts, at: Moment)
    requires { CanTake parts.old None (steps.Boot at) }
    ensures { Takes parts.old parts.new (steps.Boot at) }
{
    tenures_find_their_parts();
    book_tenures::boot(parts, at);
}

fn zone(parts: &mut Parts, at: Moment, name: ZoneName, bytes: Blob)
    requires { CanTake parts.old None (steps.Zone at name bytes) }
    ensures { Takes parts.old parts.new (steps.Zone at name bytes) }
{
    tenures_find_their_parts();
    book_tenures::zone(parts, at, name, bytes);
}

fn lease(parts: &mut Parts, at: Moment, shard: u8, worker: u32, epoch: u64, until: u64)
    requires { CanTake parts.old None (steps.Lease at shard worker epoch until) }
    ensures { Takes parts.old parts.new (steps.Lease at shard worker epoch until) }
{
    tenures_find_their_parts();
    book_tenures::lease(parts, at, shard, worker, epoch, until);
}

fn release(parts: &mut Parts, at: Moment, shard: u8, worker: u32, epoch: u64)
    requires { CanTake parts.old None (steps.Release at shard worker epoch) }
    ensures { Takes parts.old parts.new (steps.Release at shard worker epoch) }
{
    tenures_find_their_parts();
    book_tenures::release(parts, at, shard, worker, epoch);
}

fn swept(parts: &mut Parts, at: Moment, shard: u8)
    requires { CanTake parts.old None (steps.Swept at shard) }
    ensures { Takes parts.old parts.new (steps.Swept at shard) }
{
    tenures_find_their_parts();
    book_tenures::swept(parts, at, shard);
}

fn enter(parts: &mut Parts, at: Moment, inc: u32, pairs: Pairs)
    requires { CanTake parts.old None (steps.Enter at inc pairs) }
    ensures { Takes parts.old parts.new (steps.Enter at inc pairs) }
{
    enters_find_their_parts();
    book_enters::enter(parts, at, inc, &pairs);
}

fn begin(parts: &mut Parts, at: Moment, inc: u32, instant: u64, number: u16, epoch: u64)
    requires { CanTake parts.old None (steps.Begin at inc instant number epoch) }
    ensures { Takes parts.old parts.new (steps.Begin at inc instant number epoch) }
{
    begins_find_their_parts();
    book_entries::begin(parts, at, inc, instant, number, epoch);
}

fn end(
    parts: &mut Parts,
    at: Moment,
    inc: u32,
    instant: u64,
    number: u16,
    verdict: Verdict,
    status: u16,
)
    requires { CanTake parts.old None (steps.End at inc instant number verdict status) }
    ensures { Takes parts.old parts.new (steps.End at inc instant number verdict status) }
{
    ends_find_their_parts();
    live_attempts_are_few();
    book_entries::end(parts, at, inc, instant, number, verdict, status);
}

fn close(parts: &mut Parts, at: Moment, inc: u32, instant: u64, reason: Reason)
    requires { CanTake parts.old None (steps.Close at inc instant reason) }
    ensures { Takes parts.old parts.new (steps.Close at inc instant reason) }
{
    closes_find_their_parts();
    book_entries::close(parts, at, inc, instant, reason);
}

fn complete(parts: &mut Parts, at: Moment, inc: u32)
    requires { CanTake parts.old None (steps.Complete at inc) }
    ensures { Takes parts.old parts.new (steps.Complete at inc) }
{
    completes_find_their_parts();
    book_completions::complete(parts, at, inc);
}

fn change(parts: &mut Parts, spare: Option<(Token, Write)>, at: Moment, write: Write)
    requires { CanTake parts.old spare (steps.Change at write) }
    ensures { Takes parts.old parts.new (steps.Change at write) }
{
    changes_find_their_parts();
    room_is_all_that_is_left();
    book_writes::change(parts, at, write, spare);
}

/// Takes a step, with what lies at hand for its token. Takes no memory.
pub fn take(parts: &mut Parts, spare: Option<(Token, Write)>, step: Step)
    requires { CanTake parts.old spare step }
    ensures { Takes parts.old parts.new step }
{
    match step {
        Step::Change { at, write } => change(parts, spare, at, write),
        Step::Boot { at } => boot(parts, at),
        Step::Zone { at, name, bytes } => zone(parts, at, name, bytes),
        Step::Lease {
            at,
            shard,
            worker,
            epoch,
            until,
        } => lease(parts, at, shard, worker, epoch, until),
        Step::Release {
            at,
            shard,
            worker,
            epoch,
        } => release(parts, at, shard, worker, epoch),
        Step::Swept { at, shard } => swept(parts, at, shard),
        Step::Enter { at, inc, pairs } => enter(parts, at, inc, pairs),
        Step::Begin {
            at,
            inc,
            instant,
            number,
            epoch,
        } => begin(parts, at, inc, instant, number, epoch),
        Step::End {
            at,
            inc,
            instant,
            number,
            verdict,
            status,
        } => end(parts, at, inc, instant, number, verdict, status),
        Step::Close {
            at,
            inc,
            instant,
            reason,
        } => close(parts, at, inc, instant, reason),
        Step::Complete { at, inc } => complete(parts, at, inc),
    }
}
