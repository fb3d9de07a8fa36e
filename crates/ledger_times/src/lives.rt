//! The life of an entry, call by call.
use anyhow::bail;
use ledger_rows::Ledger;
use sched_plain::{LAST_MOMENT, Moment, Pair, Pairs, Policy, Verdict};
use std::alloc::Global;

/// Enters an entry at an instant.
pub fn entered(alloc: Global, ledger: &mut Ledger, inc: u32, instant: u64) -> anyhow::Result<()> {
    let mut pairs = Pairs::new(alloc);
    pairs.push(Pair {
        instant,
        chosen: instant,
    })?;
    ledger.reserve_enter(inc, 1)?;
    if pairs.len() != 1 || !ledger.may_enter(inc, &pairs) {
        bail!("not to be entered");
    }
    let policy = Policy {
        retries: 2,
        age: 86400,
    };
    ledger.enter(inc, policy, &pairs);
    Ok(())
}

/// Begins its first attempt.
pub fn begun(ledger: &mut Ledger, inc: u32, instant: u64) -> anyhow::Result<()> {
    if instant > LAST_MOMENT {
        bail!("too late");
    }
    ledger.reserve_begin(inc, instant)?;
    if !ledger.is_due(inc, instant, Moment(instant)) {
        bail!("not due");
    }
    let _ = ledger.begin(inc, instant, 1, Moment(instant));
    Ok(())
}

/// Ends it.
pub fn ended(ledger: &mut Ledger, inc: u32, instant: u64) -> anyhow::Result<()> {
    if instant > LAST_MOMENT || !ledger.is_live(inc, instant, 1) {
        bail!("not live");
    }
    ledger.end(inc, instant, 1, Verdict::Done, 200, Moment(instant));
    Ok(())
}
