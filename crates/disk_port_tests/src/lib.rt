//! Tests of `disk_port` through what it shows: the files in memory, and a file of the machine.
#![tactic(auto)]

#[cfg(test)]
mod files;
#[cfg(test)]
mod memory;
