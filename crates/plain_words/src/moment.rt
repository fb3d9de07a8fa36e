/// A count of seconds since 1970-01-01T00:00:00Z, from 0 to 7258118399, the last second of 2199.
#[derive(Debug, Clone, Copy, PartialEq, Eq, PartialOrd, Ord)]
pub struct Moment(pub u64);
