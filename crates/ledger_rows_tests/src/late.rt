//! A worker that is too late: its lease went to another, and its attempt was lost.
use crate::kit::{begin, end, enter, pairs_of, policy};
use ledger_rows::Ledger;
use policy_rules::{Held, Leases, Stale};
use sched_plain::{Moment, Verdict};
use std::alloc::Global;
use std::test::Fail;

/// What came of it.
#[derive(Debug, PartialEq, Eq, Drop)]
struct TooLate {
    /// The epoch of the worker after it.
    taken: Result<u64, Held>,
    /// What its renewal answers.
    renewed: Result<u64, Stale>,
    /// Whether its end was taken.
    ended: bool,
    /// The number of the next attempt.
    next: Option<u16>,
    /// How many attempts there are.
    attempts: usize,
}

/// A worker takes a shard and begins an attempt; a minute later another takes it, and the first comes back.
fn too_late(alloc: Global) -> Result<TooLate, Fail> {
    let mut leases = Leases::new();
    let mut ledger = Ledger::new(alloc);
    let pairs = pairs_of(alloc, &[(1000, 1000)])?;
    enter(&mut ledger, 1, policy(2, 86400), &pairs)?;
    let _ = leases.take(1, 7, Moment(1000));
    begin(&mut ledger, 1, 1000, 1000)?;
    let taken = leases.take(1, 8, Moment(1060));
    ledger.lose(Some(1), Moment(1060));
    let renewed = leases.renew(1, 7, 1, Moment(1061));
    let ended = end(&mut ledger, 1, 1000, 1, Verdict::Done, 1061);
    let next = begin(&mut ledger, 1, 1000, 1061)?;
    Ok(TooLate {
        taken,
        renewed,
        ended,
        next,
        attempts: ledger.attempts(1, 1000).len(),
    })
}

#[test]
fn late_worker_is_stale_and_its_end_refused(rt: HostRuntime) -> Result<(), Fail> {
    let expected = TooLate {
        taken: Ok(2),
        renewed: Err(Stale { epoch: 2 }),
        ended: false,
        next: Some(2),
        attempts: 2,
    };
    assert_eq!(rt; too_late(rt.alloc())?, expected);
    Ok(())
}
