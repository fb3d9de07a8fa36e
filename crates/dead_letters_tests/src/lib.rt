//! Tests of `dead_letters` through what it shows: two queues in turn, and pages from any letter on.
#![tactic(auto)]

#[cfg(test)]
mod letters;
