//! Tests of `civil_time`: numbers of civil seconds against Python's calendar, there and back, and the
//! part at fault of dates and times that are none.
#![tactic(auto)]

#[cfg(test)]
mod faults;
#[cfg(test)]
mod numbers;
#[cfg(test)]
mod samples;
