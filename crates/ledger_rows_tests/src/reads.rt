//! What is read over several incarnations.
use crate::kit::{begin, end, enter, pairs_of, policy};
use ledger_rows::Ledger;
use sched_plain::{Moment, Pair, Pairs, Verdict};
use std::test::Fail;

#[test]
fn three_hundred_entries_in_two_calls(rt: HostRuntime) -> Result<(), Fail> {
    let mut ledger = Ledger::new(rt.alloc());
    for (from, count) in [(0u64, 256u64), (256, 44)] {
        let mut pairs = Pairs::new(rt.alloc());
        for k in 0..count {
            let instant = from.wrapping_add(k).wrapping_mul(60);
            pairs.push(Pair {
                instant,
                chosen: instant,
            })?;
        }
        assert!(rt; enter(&mut ledger, 9, policy(185, 86400), &pairs)?);
        assert!(rt; !enter(&mut ledger, 9, policy(185, 86400), &pairs)?);
    }
    assert_eq!(rt; ledger.undecided(9), 300);
    assert_eq!(rt; ledger.counts(Moment(60)).entries, 300);
    assert_eq!(rt; ledger.counts(Moment(60)).due, 2);
    assert_eq!(rt; ledger.counts(Moment(60)).waiting, 298);
    assert_eq!(rt; begin(&mut ledger, 9, 299 * 60, 299 * 60)?, Some(1));
    Ok(())
}

#[test]
fn first_due_over_three_incarnations(rt: HostRuntime) -> Result<(), Fail> {
    let mut ledger = Ledger::new(rt.alloc());
    let three = pairs_of(rt.alloc(), &[(100, 100), (200, 900), (300, 300)])?;
    for inc in [2, 10, 18, 3] {
        assert!(rt; enter(&mut ledger, inc, policy(185, 86400), &three)?);
    }
    assert_eq!(rt; ledger.first_due(2, Moment(99)), None);
    assert_eq!(rt; begin(&mut ledger, 2, 100, 300)?, Some(1));
    assert_eq!(rt; ledger.first_due(2, Moment(300)), Some((2, 300)));
    assert_eq!(rt; begin(&mut ledger, 2, 300, 300)?, Some(1));
    assert_eq!(rt; ledger.first_due(2, Moment(300)), Some((10, 100)));
    assert!(rt; end(&mut ledger, 2, 100, 1, Verdict::Done, 301));
    assert!(rt; end(&mut ledger, 2, 300, 1, Verdict::Retry, 301));
    assert_eq!(rt; ledger.first_due(2, Moment(301)), Some((10, 100)));
    assert_eq!(rt; ledger.first_due(2, Moment(302)), Some((2, 300)));
    assert_eq!(rt; ledger.first_due(3, Moment(302)), Some((3, 100)));
    assert_eq!(rt; ledger.first_due(4, Moment(302)), None);
    assert_eq!(rt; begin(&mut ledger, 18, 100, 302)?, Some(1));
    assert_eq!(rt; ledger.first_live(2), Some((18, 100)));
    assert_eq!(rt; ledger.filed(5, 100), None);
    assert_eq!(rt; ledger.attempts(2, 100).len(), 1);
    Ok(())
}
