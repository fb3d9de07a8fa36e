//! Tests of `sched_rows` through what it shows: groups and schedules over changes, pages of lists, and limits.
#![tactic(auto)]

#[cfg(test)]
mod book;
#[cfg(test)]
mod changes;
#[cfg(test)]
mod limits;
#[cfg(test)]
mod lists;
#[cfg(test)]
mod pages;
#[cfg(test)]
mod tellings;
#[cfg(test)]
mod writes;
