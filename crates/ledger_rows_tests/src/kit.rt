//! Calls that are made where they may be.
use ledger_rows::Ledger;
use sched_plain::{LAST_MOMENT, Moment, Pair, Pairs, Policy, Verdict};
use std::alloc::Global;
use std::test::Fail;

/// The pairs of these instants and chosen moments.
pub fn pairs_of(alloc: Global, all: &[(u64, u64)]) -> Result<Pairs, Fail> {
    let mut pairs = Pairs::new(alloc);
    for (instant, chosen) in all {
        pairs.push(Pair {
            instant: *instant,
            chosen: *chosen,
        })?;
    }
    Ok(pairs)
}

/// Enters pairs, where they may be entered.
pub fn enter(ledger: &mut Ledger, inc: u32, policy: Policy, pairs: &Pairs) -> Result<bool, Fail> {
    let count = pairs.len();
    if count > 256 {
        return Ok(false);
    }
    ledger.reserve_enter(inc, count as u16)?;
    if !ledger.may_enter(inc, pairs) {
        return Ok(false);
    }
    ledger.enter(inc, policy, pairs);
    Ok(true)
}

/// Begins the next attempt, where it is due; its number.
pub fn begin(ledger: &mut Ledger, inc: u32, instant: u64, at: u64) -> Result<Option<u16>, Fail> {
    if at > LAST_MOMENT {
        return Ok(None);
    }
    ledger.reserve_begin(inc, instant)?;
    if !ledger.is_due(inc, instant, Moment(at)) {
        return Ok(None);
    }
    Ok(Some(ledger.begin(inc, instant, 1, Moment(at))))
}

/// Ends the attempt of this number, where it is in the air.
pub fn end(
    ledger: &mut Ledger,
    inc: u32,
    instant: u64,
    number: u16,
    verdict: Verdict,
    at: u64,
) -> bool {
    if at > LAST_MOMENT || !ledger.is_live(inc, instant, number) {
        return false;
    }
    ledger.end(inc, instant, number, verdict, 500, Moment(at));
    true
}

/// The policy of so many retries, and an age in seconds.
pub fn policy(retries: u8, age: u32) -> Policy {
    Policy { retries, age }
}
