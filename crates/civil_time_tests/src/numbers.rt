use crate::samples::{Clock, civil};
use civil_time::{checked, civil_at, second_of};
use plain_words::LAST_MOMENT;

// The expected seconds are those of Python's datetime in UTC.

const ROWS: [(Clock, u64); 11] = [
    (((1970, 1, 1), (0, 0, 0)), 0),
    (((1970, 1, 1), (23, 59, 59)), 86399),
    (((1970, 1, 2), (0, 0, 0)), 86400),
    (((1999, 12, 31), (23, 59, 59)), 946684799),
    (((2000, 2, 29), (12, 0, 0)), 951825600),
    (((2000, 3, 1), (0, 0, 0)), 951868800),
    (((2026, 3, 8), (2, 30, 0)), 1772937000),
    (((2028, 2, 29), (23, 59, 59)), 1835481599),
    (((2100, 2, 28), (23, 59, 59)), 4107542399),
    (((2100, 3, 1), (0, 0, 0)), 4107542400),
    (((2199, 12, 31), (23, 59, 59)), 7258118399),
];

#[test]
fn there_and_back(rt: HostRuntime) {
    for (clock, number) in &ROWS {
        let second = *number;
        let d = checked(civil(*clock)).expect(&rt, "a real civil second");
        assert_eq!(rt; d, civil(*clock), "{second}");
        assert_eq!(rt; second_of(d), second, "{second}");
        assert!(rt; second <= LAST_MOMENT);
        assert_eq!(rt; civil_at(second), d, "{second}");
    }
}
