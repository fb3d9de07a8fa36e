//! Numbers that keep a rule: moments, counts, codes and limits.
ghost use Rattle.std.specs.Prelude.{◌≡◌, ◌≤◌, ◌+◌, ◌==◌, IfOk, length};
ghost use Rattle.step_codec.specs.Cells.{One, Two, Four, Eight};
ghost use Rattle.step_codec.specs.Faults.{Reads};
ghost use Rattle.step_codec.specs.Payload.{flag, reason_code, verdict_code};
ghost use Rattle.step_codec.specs.Rules as rule;
ghost use Rattle.step_codec.specs.Tables.{passing_at};

use crate::fault::FieldFault;
use crate::numbers::{number_8, number_16, number_32, number_64};
use sched_plain::{
    LAST_MOMENT, LEASE_SECONDS, LEAST_AGE, LONGEST_AGE, LONGEST_WINDOW, MOST_PAIRS, MOST_RETRIES,
    Moment, Reason, SHARDS, Verdict,
};

/// How far behind its instant a chosen moment may lie, in seconds: the longest window, but for its last second.
const LONGEST_OFFSET: u32 = 86_399;

/// The fault of a field that breaks its rule.
fn broken(field: &[u8]) -> FieldFault
    ensures { result ≡ FieldFault.Broken (length field.now) }
{
    FieldFault::Broken { left: field.len() }
}

/// Seconds since 1970 UTC, up to the last moment.
#[tactic(auto, unfolding(crate::specs::Tables::passing_at))]
pub(crate) fn moment(bytes: &[u8]) -> Result<(u64, &[u8]), FieldFault>
    ensures read { Reads (λ x. (x.0, x.1.now)) result (passing_at Eight rule.is_moment bytes.now) }
    ensures within { IfOk result (λ x. x.0 ≤ LAST_MOMENT) }
{
    let (moment, behind) = number_64(bytes)?;
    if moment > LAST_MOMENT {
        return Err(broken(bytes));
    }
    Ok((moment, behind))
}

/// The number of an incarnation, from 1.
#[tactic(auto, unfolding(crate::specs::Tables::passing_at))]
pub(crate) fn incarnation(bytes: &[u8]) -> Result<(u32, &[u8]), FieldFault>
    ensures { Reads (λ x. (x.0, x.1.now)) result (passing_at Four rule.counts_from_one bytes.now) }
{
    let (inc, behind) = number_32(bytes)?;
    if inc == 0 {
        return Err(broken(bytes));
    }
    Ok((inc, behind))
}

/// The number of an attempt, from 1.
#[tactic(auto, unfolding(crate::specs::Tables::passing_at))]
pub(crate) fn attempt(bytes: &[u8]) -> Result<(u16, &[u8]), FieldFault>
    ensures { Reads (λ x. (x.0, x.1.now)) result (passing_at Two rule.counts_from_one bytes.now) }
{
    let (number, behind) = number_16(bytes)?;
    if number == 0 {
        return Err(broken(bytes));
    }
    Ok((number, behind))
}

/// The number of an epoch, any.
#[tactic(auto, unfolding(crate::specs::Tables::passing_at))]
pub(crate) fn epoch(bytes: &[u8]) -> Result<(u64, &[u8]), FieldFault>
    ensures { Reads (λ x. (x.0, x.1.now)) result (passing_at Eight rule.any bytes.now) }
{
    let (epoch, behind) = number_64(bytes)?;
    Ok((epoch, behind))
}

/// The number of a worker, any.
#[tactic(auto, unfolding(crate::specs::Tables::passing_at))]
pub(crate) fn worker(bytes: &[u8]) -> Result<(u32, &[u8]), FieldFault>
    ensures { Reads (λ x. (x.0, x.1.now)) result (passing_at Four rule.any bytes.now) }
{
    let (worker, behind) = number_32(bytes)?;
    Ok((worker, behind))
}

/// One of the shards.
#[tactic(auto, unfolding(crate::specs::Tables::passing_at))]
pub(crate) fn shard(bytes: &[u8]) -> Result<(u8, &[u8]), FieldFault>
    ensures { Reads (λ x. (x.0, x.1.now)) result (passing_at One rule.is_shard bytes.now) }
{
    let (shard, behind) = number_8(bytes)?;
    if shard >= SHARDS {
        return Err(broken(bytes));
    }
    Ok((shard, behind))
}

/// The end of a lease that was taken at this moment.
#[tactic(auto, unfolding(crate::specs::Tables::passing_at))]
pub(crate) fn lease_end(at: Moment, bytes: &[u8]) -> Result<(u64, &[u8]), FieldFault>
    requires { at.0 ≤ LAST_MOMENT }
    ensures { Reads (λ x. (x.0, x.1.now)) result (passing_at Eight (λ until. until == at.0 + LEASE_SECONDS) bytes.now) }
{
    let (until, behind) = number_64(bytes)?;
    if until != at.0 + LEASE_SECONDS {
        return Err(broken(bytes));
    }
    Ok((until, behind))
}

/// How many pairs an Enter has.
#[tactic(auto, unfolding(crate::specs::Tables::passing_at))]
pub(crate) fn pair_count(bytes: &[u8]) -> Result<(u16, &[u8]), FieldFault>
    ensures { Reads (λ x. (x.0, x.1.now)) result (passing_at Two rule.is_count bytes.now) }
{
    let (count, behind) = number_16(bytes)?;
    if count == 0 || count as usize > MOST_PAIRS {
        return Err(broken(bytes));
    }
    Ok((count, behind))
}

/// How far a chosen moment lies behind its instant, in seconds.
#[tactic(auto, unfolding(crate::specs::Tables::passing_at))]
pub(crate) fn offset(bytes: &[u8]) -> Result<(u32, &[u8]), FieldFault>
    ensures read { Reads (λ x. (x.0, x.1.now)) result (passing_at Four rule.is_offset bytes.now) }
    ensures within { IfOk result (λ x. x.0 ≤ LONGEST_OFFSET) }
{
    let (offset, behind) = number_32(bytes)?;
    if offset > LONGEST_OFFSET {
        return Err(broken(bytes));
    }
    Ok((offset, behind))
}

/// A status: 0 for none, or 100 to 999.
#[tactic(auto, unfolding(crate::specs::Tables::passing_at))]
pub(crate) fn status(bytes: &[u8]) -> Result<(u16, &[u8]), FieldFault>
    ensures { Reads (λ x. (x.0, x.1.now)) result (passing_at Two rule.is_status bytes.now) }
{
    let (status, behind) = number_16(bytes)?;
    if status != 0 && (status < 100 || status > 999) {
        return Err(broken(bytes));
    }
    Ok((status, behind))
}

/// The minutes of a window; 0 is none.
#[tactic(auto, unfolding(crate::specs::Tables::passing_at))]
pub(crate) fn window(bytes: &[u8]) -> Result<(u16, &[u8]), FieldFault>
    ensures { Reads (λ x. (x.0, x.1.now)) result (passing_at Two (rule.at_most LONGEST_WINDOW) bytes.now) }
{
    let (window, behind) = number_16(bytes)?;
    if window > LONGEST_WINDOW {
        return Err(broken(bytes));
    }
    Ok((window, behind))
}

/// The most retries of an occurrence.
#[tactic(auto, unfolding(crate::specs::Tables::passing_at))]
pub(crate) fn retries(bytes: &[u8]) -> Result<(u8, &[u8]), FieldFault>
    ensures { Reads (λ x. (x.0, x.1.now)) result (passing_at One (rule.at_most MOST_RETRIES) bytes.now) }
{
    let (retries, behind) = number_8(bytes)?;
    if retries > MOST_RETRIES {
        return Err(broken(bytes));
    }
    Ok((retries, behind))
}

/// The age at which an occurrence is given up, in seconds.
#[tactic(auto, unfolding(crate::specs::Tables::passing_at))]
pub(crate) fn age(bytes: &[u8]) -> Result<(u32, &[u8]), FieldFault>
    ensures { Reads (λ x. (x.0, x.1.now)) result (passing_at Four rule.is_age bytes.now) }
{
    let (age, behind) = number_32(bytes)?;
    if age < LEAST_AGE || age > LONGEST_AGE {
        return Err(broken(bytes));
    }
    Ok((age, behind))
}

/// A flag of one byte, 0 or 1.
#[tactic(auto, unfolding(crate::specs::Tables::passing_at))]
pub(crate) fn flag(bytes: &[u8]) -> Result<(bool, &[u8]), FieldFault>
    ensures { Reads (λ x. (flag x.0, x.1.now)) result (passing_at One rule.is_flag bytes.now) }
{
    let (flag, behind) = number_8(bytes)?;
    match flag {
        0 => Ok((false, behind)),
        1 => Ok((true, behind)),
        _ => Err(broken(bytes)),
    }
}

/// A code of one byte, from 1 to the last one.
#[tactic(auto, unfolding(crate::specs::Tables::passing_at))]
pub(crate) fn code(bytes: &[u8], last: u8) -> Result<(u8, &[u8]), FieldFault>
    ensures read { Reads (λ x. (x.0, x.1.now)) result (passing_at One (rule.is_code last) bytes.now) }
    ensures least { IfOk result (λ x. 1 ≤ x.0) }
    ensures most { IfOk result (λ x. x.0 ≤ last) }
{
    let (code, behind) = number_8(bytes)?;
    if code == 0 || code > last {
        return Err(broken(bytes));
    }
    Ok((code, behind))
}

/// The verdict of an attempt.
#[tactic(auto, unfolding(crate::specs::Tables::passing_at))]
pub(crate) fn verdict(bytes: &[u8]) -> Result<(Verdict, &[u8]), FieldFault>
    ensures { Reads (λ x. (verdict_code x.0, x.1.now)) result (passing_at One (rule.is_code 3) bytes.now) }
{
    let (code, behind) = number_8(bytes)?;
    match code {
        1 => Ok((Verdict::Done, behind)),
        2 => Ok((Verdict::Retry, behind)),
        3 => Ok((Verdict::Final, behind)),
        _ => Err(broken(bytes)),
    }
}

/// Why an entry was given up.
#[tactic(auto, unfolding(crate::specs::Tables::passing_at))]
pub(crate) fn reason(bytes: &[u8]) -> Result<(Reason, &[u8]), FieldFault>
    ensures { Reads (λ x. (reason_code x.0, x.1.now)) result (passing_at One (rule.is_code 2) bytes.now) }
{
    let (code, behind) = number_8(bytes)?;
    match code {
        1 => Ok((Reason::Attempts, behind)),
        2 => Ok((Reason::Age, behind)),
        _ => Err(broken(bytes)),
    }
}
