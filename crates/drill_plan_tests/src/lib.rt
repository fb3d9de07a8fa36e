//! Tests of the plan of a drill.
#![tactic(auto)]

#[cfg(test)]
mod plan;
