use policy_rules::standing;
use sched_plain::{Entry, Last, Moment, Outcome, Policy, Reason, Standing};

/// Attempts begun, the last of them, retries, seconds of the age, a moment, and where the entry stands then that was
/// chosen for 1000.
type Row = (u16, Last, u8, u32, u64, Standing);

const ROWS: [Row; 17] = [
    // Before any attempt.
    (
        0,
        Last::NoAttempt,
        2,
        86_400,
        999,
        Standing::Waiting { until: 1000 },
    ),
    (0, Last::NoAttempt, 2, 86_400, 1000, Standing::Due),
    // Exactly at its age it is not past it.
    (0, Last::NoAttempt, 2, 86_400, 87_400, Standing::Due),
    (
        0,
        Last::NoAttempt,
        2,
        86_400,
        87_401,
        Standing::Exhausted(Reason::Age),
    ),
    // Three attempts, each lost: waits of 1 and 2 seconds, and no fourth.
    (
        1,
        Last::Ended { at: 1000 },
        2,
        86_400,
        1000,
        Standing::Waiting { until: 1001 },
    ),
    (1, Last::Ended { at: 1000 }, 2, 86_400, 1001, Standing::Due),
    (
        2,
        Last::Ended { at: 1001 },
        2,
        86_400,
        1002,
        Standing::Waiting { until: 1003 },
    ),
    (2, Last::Ended { at: 1001 }, 2, 86_400, 1003, Standing::Due),
    (
        3,
        Last::Ended { at: 1003 },
        2,
        86_400,
        1003,
        Standing::Exhausted(Reason::Attempts),
    ),
    // A lost attempt counts as one that ended.
    (
        1,
        Last::Lost { at: 1000 },
        2,
        86_400,
        1000,
        Standing::Waiting { until: 1001 },
    ),
    (
        1,
        Last::Lost { at: 1000 },
        0,
        86_400,
        1000,
        Standing::Exhausted(Reason::Attempts),
    ),
    // A wait that ends beyond the age is not begun: 32 seconds behind 1031, and the age ends at 1060.
    (
        5,
        Last::Ended { at: 1015 },
        185,
        60,
        1030,
        Standing::Waiting { until: 1031 },
    ),
    (
        6,
        Last::Ended { at: 1031 },
        185,
        60,
        1031,
        Standing::Exhausted(Reason::Age),
    ),
    // The last attempt that is allowed, and one more.
    (
        185,
        Last::Ended { at: 50_000 },
        185,
        86_400,
        50_900,
        Standing::Due,
    ),
    (
        186,
        Last::Ended { at: 50_000 },
        185,
        86_400,
        50_900,
        Standing::Exhausted(Reason::Attempts),
    ),
    // A live attempt stands before any exhaustion.
    (3, Last::Live { at: 1003 }, 2, 60, 90_000, Standing::Live),
    (1, Last::Live { at: 1000 }, 2, 86_400, 1000, Standing::Live),
];

#[test]
fn entries_at_their_bounds(rt: HostRuntime) {
    for (used, last, retries, age, now, wanted) in ROWS {
        let entry = Entry {
            chosen: 1000,
            used,
            last,
            outcome: None,
        };
        let policy = Policy { retries, age };
        assert_eq!(rt;
            standing(&entry, policy, Moment(now)),
            wanted,
            "{used} {retries} {age} {now}"
        );
    }
}

/// A day's age of hourly occurrences that nobody looked at for two days: the one of hour 24 is exactly as old as it may be.
#[test]
fn hours_of_two_days(rt: HostRuntime) {
    let policy = Policy {
        retries: 185,
        age: 86_400,
    };
    for hour in 0..49 {
        let entry = Entry {
            chosen: 3600 * hour,
            used: 0,
            last: Last::NoAttempt,
            outcome: None,
        };
        let wanted = if hour < 24 {
            Standing::Exhausted(Reason::Age)
        } else {
            Standing::Due
        };
        assert_eq!(rt;
            standing(&entry, policy, Moment(172_800)),
            wanted,
            "hour {hour}"
        );
    }
}

/// What is decided stays decided, whatever became of its last attempt.
#[test]
fn decided_entries(rt: HostRuntime) {
    let outcomes = [
        Outcome::Done,
        Outcome::Final,
        Outcome::Attempts,
        Outcome::Age,
        Outcome::Cancelled,
    ];
    for outcome in outcomes {
        let entry = Entry {
            chosen: 1000,
            used: 1,
            last: Last::Live { at: 1000 },
            outcome: Some(outcome),
        };
        let policy = Policy {
            retries: 0,
            age: 60,
        };
        assert_eq!(rt;
            standing(&entry, policy, Moment(1000)),
            Standing::Decided(outcome)
        );
    }
}
