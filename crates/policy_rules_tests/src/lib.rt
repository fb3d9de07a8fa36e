//! Tests of `policy_rules` through what it shows: windows and waits, entries at the bounds of their policy, workers at
//! one shard, and what pickers and clocks give.
#![tactic(auto)]

#[cfg(test)]
mod given;
#[cfg(test)]
mod leases;
#[cfg(test)]
mod standings;
#[cfg(test)]
mod windows;
