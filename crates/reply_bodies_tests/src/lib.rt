//! Tests of `reply_bodies`: each reply's body as it is written out, with all that it can show and with the least.
#![tactic(auto)]

#[cfg(test)]
mod executions;
#[cfg(test)]
mod messages;
#[cfg(test)]
mod pages;
#[cfg(test)]
mod samples;
#[cfg(test)]
mod schedules;
#[cfg(test)]
mod writes;
