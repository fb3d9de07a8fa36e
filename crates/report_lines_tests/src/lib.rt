//! Tests of what the program writes about a journal.
#![tactic(auto)]

#[cfg(test)]
mod lines;
