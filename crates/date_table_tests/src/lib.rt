//! Tests of the table of dates, through its public face.
#![tactic(auto)]

#[cfg(test)]
mod dates;
