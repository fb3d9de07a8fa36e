//! Tests of the tree of minima, through its public face.
#![tactic(auto)]

#[cfg(test)]
mod searches;
