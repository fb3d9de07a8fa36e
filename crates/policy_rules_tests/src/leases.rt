use policy_rules::{Held, Leases, Stale};
use sched_plain::{Holder, Moment};

/// Two workers at a shard: what the first has is in the way of the second until its very end, and is stale from the
/// second's taking on.
#[test]
fn a_shard_goes_from_worker_to_worker(rt: HostRuntime) {
    let mut leases = Leases::new();
    assert_eq!(rt; leases.take(1, 1, Moment(100)), Ok(1));
    let held = Held {
        worker: 1,
        until: 160,
    };
    assert_eq!(rt; leases.take(1, 2, Moment(159)), Err(held));
    assert_eq!(rt; leases.take(1, 2, Moment(160)), Ok(2));
    let stale = Stale { epoch: 2 };
    assert_eq!(rt; leases.renew(1, 1, 1, Moment(161)), Err(stale));
    assert_eq!(rt; leases.release(1, 1, 1), Err(stale));
    let holder = Holder {
        worker: 2,
        epoch: 2,
        until: 220,
    };
    assert_eq!(rt; leases.holder(1), holder);
}

/// A renewal keeps the epoch, also after a release; a taking by the same worker raises it.
#[test]
fn a_worker_keeps_its_shard(rt: HostRuntime) {
    let mut leases = Leases::new();
    assert_eq!(rt; leases.take(7, 4, Moment(0)), Ok(1));
    assert_eq!(rt; leases.renew(7, 4, 1, Moment(59)), Ok(119));
    assert_eq!(rt; leases.release(7, 4, 1), Ok(()));
    assert_eq!(rt; leases.holder(7).until, 0);
    assert_eq!(rt; leases.release(7, 4, 1), Ok(()));
    assert_eq!(rt; leases.renew(7, 4, 1, Moment(59)), Ok(119));
    assert_eq!(rt; leases.take(7, 4, Moment(60)), Ok(2));
    assert_eq!(rt; leases.renew(7, 4, 1, Moment(60)), Err(Stale { epoch: 2 }));
    // No other shard was touched.
    for shard in 0..7 {
        assert_eq!(rt; leases.holder(shard).epoch, 0);
    }
}

/// Freed shards keep their epochs, and each goes to whoever asks first.
#[test]
fn all_shards_are_freed(rt: HostRuntime) {
    let mut leases = Leases::new();
    assert_eq!(rt; leases.take(0, 1, Moment(100)), Ok(1));
    assert_eq!(rt; leases.take(7, 1, Moment(100)), Ok(1));
    leases.free_all();
    for shard in 0..8 {
        assert_eq!(rt; leases.holder(shard).until, 0);
    }
    assert_eq!(rt; leases.take(0, 2, Moment(100)), Ok(2));
    assert_eq!(rt; leases.take(7, 3, Moment(100)), Ok(2));
}

/// A worker that took a shard before it was put down may renew it, and nobody has a shard that was never taken.
#[test]
fn shards_are_resumed(rt: HostRuntime) {
    let mut leases = Leases::resume([0, 5, 0, 0, 0, 0, 0, 9], [3, 2, 0, 0, 0, 0, 0, 1]);
    assert_eq!(rt; leases.renew(1, 2, 5, Moment(100)), Ok(160));
    assert_eq!(rt; leases.renew(1, 1, 5, Moment(100)), Err(Stale { epoch: 5 }));
    assert_eq!(rt; leases.release(0, 3, 0), Err(Stale { epoch: 0 }));
    assert_eq!(rt; leases.take(7, 2, Moment(0)), Ok(10));
    assert_eq!(rt; leases.take(0, 2, Moment(0)), Ok(1));
}
