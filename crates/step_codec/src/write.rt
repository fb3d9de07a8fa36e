//! Writes the cells of each kind of step.
ghost use Rattle.std.specs.Prelude.{◌≡◌, ◌≤◌, ◌<◌, ◌+◌, ◌*◌, ◌++◌, ◌∷◌, [], length};
ghost use Rattle.std.specs.List.{All};
ghost use Rattle.step_codec.specs.Cells.{Eight, Four, Number, One, Two, Words, spelled};
ghost use Rattle.step_codec.specs.Parts.{IsOfFields};
ghost use Rattle.step_codec.specs.Payload.{cells, code, pair_cells, reason_code, verdict_code, write_cells};
ghost use Rattle.sched_plain.specs.Validity.{IsPair, IsValid, IsWrite};
ghost use Rattle.sched_plain.specs.declared.step.Step.TheVariants.{Begin, Close, Complete, End, Lease, Swept};

use crate::frame_buf::FrameBuf;
use crate::put_change::put_write;
use sched_plain::{LONGEST_ZONE, MOST_PAIRS, Moment, Pair, Reason, Step, Verdict, Write, ZoneName};

/// The tag and the moment of a step.
fn put_head(into: &mut FrameBuf, tag: u8, at: Moment)
    requires { 9 ≤ into.old.room }
    ensures bytes { into.new.bytes ≡ into.old.bytes ++ spelled (code tag ∷ Number Eight at.0 ∷ []) }
    ensures room { into.old.room ≤ into.new.room + 9 }
{
    into.put_8(tag);
    into.put_64(at.0);
}

/// A pair as its instant, and how far behind it the chosen moment lies.
fn put_pair(into: &mut FrameBuf, pair: Pair)
    requires valid { IsPair pair }
    requires room { 12 ≤ into.old.room }
    ensures bytes { into.new.bytes ≡ into.old.bytes ++ spelled (pair_cells (pair ∷ [])) }
    ensures room { into.old.room ≤ into.new.room + 12 }
{
    into.put_64(pair.instant);
    into.put_32((pair.chosen - pair.instant) as u32);
}

fn put_pairs(into: &mut FrameBuf, pairs: &[Pair])
    requires valid { All IsPair pairs.now }
    requires room { 12 * length pairs.now ≤ into.old.room }
    ensures bytes { into.new.bytes ≡ into.old.bytes ++ spelled (pair_cells pairs.now) }
    ensures room { into.old.room ≤ into.new.room + 12 * length pairs.now }
{
    for pair in pairs {
        put_pair(into, *pair);
    }
}

/// The bytes of a zone's name.
fn zone_name_bytes(name: &ZoneName) -> &[u8]
    ensures value { result.now ≡ name.now }
    ensures short { length result.now ≤ 50 }
{
    name.as_bytes()
}

fn put_zone(into: &mut FrameBuf, at: Moment, name: &ZoneName, bytes: &[u8])
    requires short { length bytes.now ≤ LONGEST_ZONE }
    requires room { 131_000 ≤ into.old.room }
    ensures bytes { into.new.bytes ≡ into.old.bytes ++ spelled (code 2 ∷ Number Eight at.0 ∷ Words One name.now ∷ Words Four bytes.now ∷ []) }
    ensures room { into.old.room ≤ into.new.room + 131_000 }
{
    into.put_8(2);
    into.put_64(at.0);
    into.put_words_8(zone_name_bytes(name));
    into.put_words_32(bytes);
}

fn put_change(into: &mut FrameBuf, at: Moment, write: &Write)
    requires valid { IsWrite write.now }
    requires room { 131_000 ≤ into.old.room }
    ensures bytes { into.new.bytes ≡ into.old.bytes ++ spelled (code 3 ∷ Number Eight at.0 ∷ write_cells write.now) }
    ensures room { into.old.room ≤ into.new.room + 131_000 }
{
    put_head(into, 3, at);
    put_write(into, write);
}

fn put_enter(into: &mut FrameBuf, at: Moment, inc: u32, pairs: &[Pair])
    requires valid { All IsPair pairs.now }
    requires few { length pairs.now ≤ MOST_PAIRS }
    requires room { 131_000 ≤ into.old.room }
    ensures bytes { into.new.bytes ≡ into.old.bytes ++ spelled (code 4 ∷ Number Eight at.0 ∷ Number Four inc ∷ Number Two (length pairs.now) ∷ pair_cells pairs.now) }
    ensures room { into.old.room ≤ into.new.room + 131_000 }
{
    put_enter_head(into, at, inc, pairs.len() as u16);
    put_pairs(into, pairs);
}

fn put_enter_head(into: &mut FrameBuf, at: Moment, inc: u32, count: u16)
    requires { 15 ≤ into.old.room }
    ensures bytes { into.new.bytes ≡ into.old.bytes ++ spelled (code 4 ∷ Number Eight at.0 ∷ Number Four inc ∷ Number Two count ∷ []) }
    ensures room { into.old.room ≤ into.new.room + 15 }
{
    into.put_8(4);
    into.put_64(at.0);
    into.put_32(inc);
    into.put_16(count);
}

/// The fields of a step that speaks of a shard as its worker holds it.
fn put_holding(into: &mut FrameBuf, tag: u8, at: Moment, shard: u8, worker: u32, epoch: u64)
    requires { 22 ≤ into.old.room }
    ensures bytes { into.new.bytes ≡ into.old.bytes ++ spelled (code tag ∷ Number Eight at.0 ∷ Number One shard ∷ Number Four worker ∷ Number Eight epoch ∷ []) }
    ensures room { into.old.room ≤ into.new.room + 22 }
{
    into.put_8(tag);
    into.put_64(at.0);
    into.put_8(shard);
    into.put_32(worker);
    into.put_64(epoch);
}

/// The fields of a step that speaks of an occurrence.
fn put_occurrence(into: &mut FrameBuf, tag: u8, at: Moment, inc: u32, instant: u64)
    requires { 21 ≤ into.old.room }
    ensures bytes { into.new.bytes ≡ into.old.bytes ++ spelled (code tag ∷ Number Eight at.0 ∷ Number Four inc ∷ Number Eight instant ∷ []) }
    ensures room { into.old.room ≤ into.new.room + 21 }
{
    into.put_8(tag);
    into.put_64(at.0);
    into.put_32(inc);
    into.put_64(instant);
}

fn verdict_code(verdict: Verdict) -> u8
    ensures { result ≡ verdict_code verdict }
{
    match verdict {
        Verdict::Done => 1,
        Verdict::Retry => 2,
        Verdict::Final => 3,
    }
}

fn reason_code(reason: Reason) -> u8
    ensures { result ≡ reason_code reason }
{
    match reason {
        Reason::Attempts => 1,
        Reason::Age => 2,
    }
}

fn put_lease(into: &mut FrameBuf, at: Moment, shard: u8, worker: u32, epoch: u64, until: u64)
    requires { 131_000 ≤ into.old.room }
    ensures bytes { into.new.bytes ≡ into.old.bytes ++ spelled (cells (Lease at shard worker epoch until)) }
    ensures room { into.old.room ≤ into.new.room + 131_000 }
{
    put_holding(into, 5, at, shard, worker, epoch);
    into.put_64(until);
}

fn put_begin(into: &mut FrameBuf, at: Moment, inc: u32, instant: u64, number: u16, epoch: u64)
    requires { 131_000 ≤ into.old.room }
    ensures bytes { into.new.bytes ≡ into.old.bytes ++ spelled (cells (Begin at inc instant number epoch)) }
    ensures room { into.old.room ≤ into.new.room + 131_000 }
{
    put_occurrence(into, 7, at, inc, instant);
    into.put_16(number);
    into.put_64(epoch);
}

fn put_end(
    into: &mut FrameBuf,
    at: Moment,
    inc: u32,
    instant: u64,
    number: u16,
    verdict: Verdict,
    status: u16,
)
    requires { 131_000 ≤ into.old.room }
    ensures bytes { into.new.bytes ≡ into.old.bytes ++ spelled (cells (End at inc instant number verdict status)) }
    ensures room { into.old.room ≤ into.new.room + 131_000 }
{
    put_occurrence(into, 8, at, inc, instant);
    into.put_16(number);
    into.put_8(verdict_code(verdict));
    into.put_16(status);
}

fn put_close(into: &mut FrameBuf, at: Moment, inc: u32, instant: u64, reason: Reason)
    requires { 131_000 ≤ into.old.room }
    ensures bytes { into.new.bytes ≡ into.old.bytes ++ spelled (cells (Close at inc instant reason)) }
    ensures room { into.old.room ≤ into.new.room + 131_000 }
{
    put_occurrence(into, 9, at, inc, instant);
    into.put_8(reason_code(reason));
}

fn put_complete(into: &mut FrameBuf, at: Moment, inc: u32)
    requires { 131_000 ≤ into.old.room }
    ensures bytes { into.new.bytes ≡ into.old.bytes ++ spelled (cells (Complete at inc)) }
    ensures room { into.old.room ≤ into.new.room + 131_000 }
{
    put_head(into, 10, at);
    into.put_32(inc);
}

fn put_swept(into: &mut FrameBuf, at: Moment, shard: u8)
    requires { 131_000 ≤ into.old.room }
    ensures bytes { into.new.bytes ≡ into.old.bytes ++ spelled (cells (Swept at shard)) }
    ensures room { into.old.room ≤ into.new.room + 131_000 }
{
    put_head(into, 11, at);
    into.put_8(shard);
}

/// The cells of a step that speaks of a shard as its worker holds it, or of an attempt.
fn put_fields(into: &mut FrameBuf, step: &Step)
    requires kind { IsOfFields step.now }
    requires room { 131_000 ≤ into.old.room }
    ensures bytes { into.new.bytes ≡ into.old.bytes ++ spelled (cells step.now) }
    ensures room { into.old.room ≤ into.new.room + 131_000 }
{
    match step {
        Step::Lease {
            at,
            shard,
            worker,
            epoch,
            until,
        } => put_lease(into, *at, *shard, *worker, *epoch, *until),
        Step::Release {
            at,
            shard,
            worker,
            epoch,
        } => put_holding(into, 6, *at, *shard, *worker, *epoch),
        Step::Begin {
            at,
            inc,
            instant,
            number,
            epoch,
        } => put_begin(into, *at, *inc, *instant, *number, *epoch),
        Step::End {
            at,
            inc,
            instant,
            number,
            verdict,
            status,
        } => put_end(into, *at, *inc, *instant, *number, *verdict, *status),
        _ => unreachable!(),
    }
}

/// The cells of a step.
pub(crate) fn put_step(into: &mut FrameBuf, step: &Step)
    requires valid { IsValid step.now }
    requires room { 131_000 ≤ into.old.room }
    ensures bytes { into.new.bytes ≡ into.old.bytes ++ spelled (cells step.now) }
    ensures room { into.old.room ≤ into.new.room + 131_000 }
{
    match step {
        Step::Boot { at } => put_head(into, 1, *at),
        Step::Zone { at, name, bytes } => put_zone(into, *at, name, bytes.as_bytes()),
        Step::Change { at, write } => put_change(into, *at, write),
        Step::Enter { at, inc, pairs } => put_enter(into, *at, *inc, pairs.as_slice()),
        Step::Close {
            at,
            inc,
            instant,
            reason,
        } => put_close(into, *at, *inc, *instant, *reason),
        Step::Complete { at, inc } => put_complete(into, *at, *inc),
        Step::Swept { at, shard } => put_swept(into, *at, *shard),
        Step::Lease { .. } => put_fields(into, step),
        Step::Release { .. } => put_fields(into, step),
        Step::Begin { .. } => put_fields(into, step),
        Step::End { .. } => put_fields(into, step),
    }
}
