//! Tests of `schedule_clock` through what it answers: rates from a creation and from a StartDate, a cron in New York over a
//! gap and a fold, dates that bound a rate and no `at`, and a disabled content.
#![tactic(auto)]

#[cfg(test)]
mod contents;
#[cfg(test)]
mod instants;
