use crate::samples::{Clock, civil};
use civil_time::{CivilFault, checked};
use expressions::Civil;

const ROWS: [(Clock, CivilFault); 13] = [
    (((1969, 12, 31), (23, 59, 59)), CivilFault::Year),
    (((2200, 13, 1), (0, 0, 0)), CivilFault::Year),
    (((2026, 0, 1), (0, 0, 0)), CivilFault::Month),
    (((2026, 13, 32), (24, 60, 60)), CivilFault::Month),
    (((2026, 2, 29), (0, 0, 0)), CivilFault::Day),
    (((2100, 2, 29), (0, 0, 0)), CivilFault::Day),
    (((2026, 4, 31), (24, 0, 0)), CivilFault::Day),
    (((2026, 4, 0), (0, 0, 0)), CivilFault::Day),
    (((2026, 4, 30), (24, 0, 0)), CivilFault::Hour),
    (((2026, 4, 30), (24, 60, 60)), CivilFault::Hour),
    (((2026, 4, 30), (23, 60, 60)), CivilFault::Minute),
    (((2026, 4, 30), (23, 59, 60)), CivilFault::Second),
    (((2026, 4, 30), (255, 255, 255)), CivilFault::Hour),
];

#[test]
fn the_first_part_at_fault(rt: HostRuntime) {
    for (clock, fault) in &ROWS {
        let wanted: Result<Civil, CivilFault> = Err(*fault);
        assert_eq!(rt; checked(civil(*clock)), wanted, "{fault}");
    }
}

#[test]
fn leap_days(rt: HostRuntime) {
    for year in [1972, 2000, 2028, 2196] {
        let d = civil(((year, 2, 29), (23, 59, 59)));
        assert_eq!(rt; checked(d), Ok(d), "{year}");
    }
}
