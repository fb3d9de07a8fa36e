//! The numbers of all entries, over incarnations of several shards.
use crate::kit::{begin, end, enter, pairs_of, policy};
use ledger_rows::{EntryCounts, Ledger};
use sched_plain::{Moment, Reason, Verdict};
use std::alloc::Global;
use std::test::Fail;

/// Closes the entry of an occurrence, where that may be.
fn close(ledger: &mut Ledger, inc: u32, instant: u64, reason: Reason) {
    if ledger.is_closable(inc, instant) {
        ledger.close(inc, instant, reason);
    }
}

/// A ledger in which an entry stands in each way but the cancelled one.
fn each_way(alloc: Global) -> Result<Ledger, Fail> {
    let mut ledger = Ledger::new(alloc);
    let three = pairs_of(alloc, &[(1000, 1000), (1060, 1060), (1120, 9000)])?;
    for inc in [1, 2, 9] {
        enter(&mut ledger, inc, policy(inc as u8 % 2, 86400), &three)?;
    }
    begin(&mut ledger, 1, 1000, 1100)?;
    end(&mut ledger, 1, 1000, 1, Verdict::Done, 1100);
    begin(&mut ledger, 1, 1060, 1100)?;
    end(&mut ledger, 1, 1060, 1, Verdict::Final, 1100);
    close(&mut ledger, 1, 1120, Reason::Age);
    for instant in [1000, 1060] {
        begin(&mut ledger, 2, instant, 1100)?;
        end(&mut ledger, 2, instant, 1, Verdict::Retry, 1100);
    }
    close(&mut ledger, 2, 1000, Reason::Attempts);
    begin(&mut ledger, 9, 1000, 1100)?;
    Ok(ledger)
}

#[test]
fn each_entry_is_counted_once(rt: HostRuntime) -> Result<(), Fail> {
    let mut ledger = each_way(rt.alloc())?;
    let before = EntryCounts {
        entries: 9,
        done: 1,
        finals: 1,
        attempts: 1,
        age: 1,
        cancelled: 0,
        waiting: 2,
        due: 1,
        live: 1,
        exhausted: 1,
    };
    assert_eq!(rt; ledger.counts(Moment(1200)), before);
    ledger.cancel(2);
    ledger.cancel(2);
    ledger.lose(None, Moment(1200));
    let after = EntryCounts {
        cancelled: 2,
        waiting: 2,
        live: 0,
        exhausted: 0,
        ..before
    };
    assert_eq!(rt; ledger.counts(Moment(1200)), after);
    Ok(())
}
