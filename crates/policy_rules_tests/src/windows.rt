use policy_rules::{chosen, delay};

/// An instant, minutes of a window, a picker's word, and the moment chosen.
const CHOSEN: [(u64, u16, u64, u64); 7] = [
    // A window that is OFF has no moment but the instant.
    (1000, 0, 901, 1000),
    (1000, 15, 0, 1000),
    (1000, 15, 899, 1899),
    (1000, 15, 900, 1000),
    (1000, 15, 901, 1001),
    // 18446744073709551615 is 15 more than a multiple of 60.
    (0, 1, u64::MAX, 15),
    // The longest window behind the last second of 2199.
    (7_258_118_399, 1440, 86_399, 7_258_204_798),
];

/// The number of an attempt, and the seconds of the wait after it.
const WAITS: [(u16, u64); 8] = [
    (1, 1),
    (2, 2),
    (3, 4),
    (6, 32),
    (10, 512),
    (11, 900),
    (185, 900),
    (u16::MAX, 900),
];

#[test]
fn moments_in_windows(rt: HostRuntime) {
    for (instant, window, word, moment) in CHOSEN {
        assert_eq!(rt;
            chosen(instant, window, word),
            moment,
            "{instant} {window} {word}"
        );
    }
}

#[test]
fn waits_between_attempts(rt: HostRuntime) {
    for (number, seconds) in WAITS {
        assert_eq!(rt; delay(number), seconds, "after {number}");
    }
}
