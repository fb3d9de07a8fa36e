//! Tests of `cron_search`: the days that each rule picks, against Python's calendar, and the search
//! against a plain scan of the minutes.
#![tactic(auto)]

#[cfg(test)]
mod day_rules;
#[cfg(test)]
mod minutes;
#[cfg(test)]
mod plain_scan;
#[cfg(test)]
mod rows;
