//! Why a civil date and time is no real one.
use std::error::Error;
use std::fmt;

/// The first part of a civil date and time that the calendar or the clock does not have, from the
/// year on.
#[derive(Debug, Clone, Copy, PartialEq, Eq)]
pub enum CivilFault {
    /// The year is none from 1970 to 2199.
    Year,
    /// The month is none from 1 to 12.
    Month,
    /// The month of that year has no such day.
    Day,
    /// The hour is none from 0 to 23.
    Hour,
    /// The minute is none from 0 to 59.
    Minute,
    /// The second is none from 0 to 59.
    Second,
}

impl fmt::Display for CivilFault {
    fn fmt<W: fmt::Write>(&self, f: &mut fmt::Formatter<W>) -> fmt::Result {
        match self {
            CivilFault::Year => write!(f, "the year is none from 1970 to 2199"),
            CivilFault::Month => write!(f, "the month is none from 1 to 12"),
            CivilFault::Day => write!(f, "the month has no such day"),
            CivilFault::Hour => write!(f, "the hour is none from 0 to 23"),
            CivilFault::Minute => write!(f, "the minute is none from 0 to 59"),
            CivilFault::Second => write!(f, "the second is none from 0 to 59"),
        }
    }
}

impl Error for CivilFault {}
