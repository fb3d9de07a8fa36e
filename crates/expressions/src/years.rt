/// The first year of civil time.
pub const FIRST_YEAR: u16 = 1970;
/// The last year of civil time.
pub const LAST_YEAR: u16 = 2199;
/// The first year of the upper half of a set of years: each half has 128.
pub const UPPER_YEAR: u16 = 2098;
