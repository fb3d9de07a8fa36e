//! Attempts with waits, losses and ages, as calls.
use crate::kit::{begin, end, enter, pairs_of, policy};
use ledger_rows::Ledger;
use sched_plain::{Fate, Last, Moment, Outcome, Reason, Verdict};
use std::test::Fail;

#[test]
fn window_is_waited_for(rt: HostRuntime) -> Result<(), Fail> {
    let mut ledger = Ledger::new(rt.alloc());
    let pairs = pairs_of(rt.alloc(), &[(1000, 1001)])?;
    assert!(rt; enter(&mut ledger, 1, policy(185, 86400), &pairs)?);
    assert_eq!(rt; ledger.first_due(1, Moment(1000)), None);
    assert_eq!(rt; begin(&mut ledger, 1, 1000, 1000)?, None);
    assert_eq!(rt; ledger.first_due(1, Moment(1001)), Some((1, 1000)));
    assert_eq!(rt; begin(&mut ledger, 1, 1000, 1001)?, Some(1));
    Ok(())
}

#[test]
fn two_retries_then_closed_by_attempts(rt: HostRuntime) -> Result<(), Fail> {
    let mut ledger = Ledger::new(rt.alloc());
    let pairs = pairs_of(rt.alloc(), &[(1000, 1000)])?;
    assert!(rt; enter(&mut ledger, 1, policy(2, 86400), &pairs)?);
    assert_eq!(rt; begin(&mut ledger, 1, 1000, 1000)?, Some(1));
    assert!(rt; end(&mut ledger, 1, 1000, 1, Verdict::Retry, 1000));
    assert_eq!(rt; begin(&mut ledger, 1, 1000, 1000)?, None);
    assert_eq!(rt; begin(&mut ledger, 1, 1000, 1001)?, Some(2));
    assert!(rt; end(&mut ledger, 1, 1000, 2, Verdict::Retry, 1001));
    assert_eq!(rt; begin(&mut ledger, 1, 1000, 1003)?, Some(3));
    assert!(rt; end(&mut ledger, 1, 1000, 3, Verdict::Retry, 1003));
    assert_eq!(rt; begin(&mut ledger, 1, 1000, 2000)?, None);
    assert_eq!(rt; ledger.first_due(1, Moment(1003)), Some((1, 1000)));
    let closable = ledger.is_closable(1, 1000);
    assert!(rt; closable);
    if closable {
        ledger.close(1, 1000, Reason::Attempts);
    }
    assert_eq!(rt; ledger.first_due(1, Moment(9000)), None);
    assert_eq!(rt; ledger.undecided(1), 0);
    assert_eq!(rt; ledger.counts(Moment(1003)).attempts, 1);
    Ok(())
}

#[test]
fn wait_beyond_the_age_is_exhausted_at_once(rt: HostRuntime) -> Result<(), Fail> {
    let mut ledger = Ledger::new(rt.alloc());
    let pairs = pairs_of(rt.alloc(), &[(1000, 1000)])?;
    assert!(rt; enter(&mut ledger, 1, policy(185, 60), &pairs)?);
    let mut number: u16 = 0;
    for at in [1000, 1001, 1003, 1007, 1015, 1031] {
        let begun = begin(&mut ledger, 1, 1000, at)?;
        assert_eq!(rt; begun, Some(number.wrapping_add(1)));
        number = number.wrapping_add(1);
        assert!(rt; end(&mut ledger, 1, 1000, number, Verdict::Retry, at));
    }
    assert_eq!(rt; ledger.first_due(1, Moment(1031)), Some((1, 1000)));
    assert_eq!(rt; ledger.counts(Moment(1031)).exhausted, 1);
    assert_eq!(rt; ledger.counts(Moment(1031)).due, 0);
    Ok(())
}

#[test]
fn age_is_not_passed_exactly_at_it(rt: HostRuntime) -> Result<(), Fail> {
    let mut ledger = Ledger::new(rt.alloc());
    let pairs = pairs_of(rt.alloc(), &[(0, 0), (3600, 3600)])?;
    assert!(rt; enter(&mut ledger, 1, policy(185, 86400), &pairs)?);
    let counts = ledger.counts(Moment(90000));
    assert_eq!(rt; counts.exhausted, 1);
    assert_eq!(rt; counts.due, 1);
    assert_eq!(rt; ledger.first_due(1, Moment(90000)), Some((1, 0)));
    assert_eq!(rt; begin(&mut ledger, 1, 3600, 90000)?, Some(1));
    Ok(())
}

#[test]
fn lost_attempt_counts(rt: HostRuntime) -> Result<(), Fail> {
    let mut ledger = Ledger::new(rt.alloc());
    let pairs = pairs_of(rt.alloc(), &[(1000, 1000)])?;
    assert!(rt; enter(&mut ledger, 1, policy(0, 86400), &pairs)?);
    assert!(rt; enter(&mut ledger, 2, policy(1, 86400), &pairs)?);
    assert_eq!(rt; begin(&mut ledger, 1, 1000, 1000)?, Some(1));
    assert_eq!(rt; begin(&mut ledger, 2, 1000, 1000)?, Some(1));
    assert_eq!(rt; ledger.live(None), 2);
    assert_eq!(rt; ledger.live(Some(2)), 1);
    ledger.lose(Some(2), Moment(1060));
    assert_eq!(rt; ledger.live(None), 1);
    assert_eq!(rt; ledger.first_live(2), None);
    assert!(rt; !end(&mut ledger, 2, 1000, 1, Verdict::Done, 1061));
    assert_eq!(rt; begin(&mut ledger, 2, 1000, 1061)?, Some(2));
    ledger.lose(None, Moment(1062));
    assert_eq!(rt; ledger.live(None), 0);
    assert_eq!(rt; ledger.counts(Moment(1062)).exhausted, 2);
    assert_eq!(rt; begin(&mut ledger, 1, 1000, 5000)?, None);
    let fates = ledger.attempts(2, 1000);
    assert_eq!(rt; fates.len(), 2);
    if fates.len() == 2 {
        assert_eq!(rt; fates[0].fate, Fate::Lost);
        assert_eq!(rt; fates[1].number, 2);
    }
    Ok(())
}

#[test]
fn end_after_the_cancellation_leaves_the_outcome(rt: HostRuntime) -> Result<(), Fail> {
    let mut ledger = Ledger::new(rt.alloc());
    let pairs = pairs_of(rt.alloc(), &[(1000, 1600), (2000, 2000)])?;
    assert!(rt; enter(&mut ledger, 1, policy(185, 86400), &pairs)?);
    assert_eq!(rt; begin(&mut ledger, 1, 1000, 1600)?, Some(1));
    assert_eq!(rt; ledger.first_live(1), Some((1, 1000)));
    ledger.cancel(1);
    assert_eq!(rt; ledger.first_live(1), None);
    assert_eq!(rt; ledger.live(Some(1)), 1);
    assert!(rt; end(&mut ledger, 1, 1000, 1, Verdict::Done, 1700));
    assert_eq!(rt; ledger.live(Some(1)), 0);
    match ledger.entry(1, 1000) {
        Some(entry) => {
            assert_eq!(rt; entry.outcome, Some(Outcome::Cancelled));
            assert_eq!(rt; entry.last, Last::Ended { at: 1700 });
        }
        None => assert!(rt; false),
    }
    assert_eq!(rt; ledger.counts(Moment(3000)).cancelled, 2);
    Ok(())
}

#[test]
fn final_verdict_decides(rt: HostRuntime) -> Result<(), Fail> {
    let mut ledger = Ledger::new(rt.alloc());
    let pairs = pairs_of(rt.alloc(), &[(1000, 1000)])?;
    assert!(rt; enter(&mut ledger, 1, policy(2, 86400), &pairs)?);
    assert_eq!(rt; begin(&mut ledger, 1, 1000, 1000)?, Some(1));
    assert!(rt; end(&mut ledger, 1, 1000, 1, Verdict::Final, 1000));
    assert_eq!(rt; begin(&mut ledger, 1, 1000, 1001)?, None);
    assert_eq!(rt; ledger.counts(Moment(1000)).finals, 1);
    assert!(rt; !ledger.is_closable(1, 1000));
    Ok(())
}

#[test]
fn shard_loses_all_of_its_attempts(rt: HostRuntime) -> Result<(), Fail> {
    let mut ledger = Ledger::new(rt.alloc());
    let pairs = pairs_of(rt.alloc(), &[(1000, 1000), (1060, 1060)])?;
    for inc in [2, 3, 10] {
        assert!(rt; enter(&mut ledger, inc, policy(1, 86400), &pairs)?);
        assert_eq!(rt; begin(&mut ledger, inc, 1060, 1060)?, Some(1));
    }
    assert_eq!(rt; begin(&mut ledger, 2, 1000, 1060)?, Some(1));
    ledger.cancel(10);
    ledger.lose(Some(2), Moment(1100));
    assert_eq!(rt; ledger.live(None), 1);
    assert_eq!(rt; ledger.first_live(3), Some((3, 1060)));
    assert_eq!(rt; ledger.first_due(2, Moment(1100)), None);
    assert_eq!(rt; ledger.first_due(2, Moment(1101)), Some((2, 1000)));
    for (inc, instant) in [(2, 1000), (2, 1060), (10, 1060)] {
        let attempts = ledger.attempts(inc, instant);
        assert_eq!(rt; attempts.len(), 1);
        for attempt in attempts {
            assert_eq!(rt; attempt.fate, Fate::Lost);
        }
    }
    Ok(())
}
