use book_counts::counts;
use book_parts::Parts;
use sched_plain::{Counts, LAST_MOMENT, Moment};
use std::test::Fail;

/// The report of no steps at a moment: there is the group `default`, and nothing else.
fn nothing_but_a_group(moment: u64) -> Counts {
    Counts {
        moment,
        steps: 0,
        schedules: 0,
        groups: 1,
        entries: 0,
        done: 0,
        finals: 0,
        attempts: 0,
        age: 0,
        cancelled: 0,
        waiting: 0,
        due: 0,
        live: 0,
        exhausted: 0,
        letters: 0,
    }
}

#[test]
fn book_of_no_steps_has_the_group_default(rt: HostRuntime) -> Result<(), Fail> {
    let parts = Parts::new(rt.alloc())?;
    assert_eq!(rt; counts(&parts, Moment(0)), nothing_but_a_group(0));
    assert_eq!(rt; counts(&parts, Moment(1_000)), nothing_but_a_group(1_000));
    assert_eq!(rt;
        counts(&parts, Moment(LAST_MOMENT)),
        nothing_but_a_group(LAST_MOMENT)
    );
    Ok(())
}
