//! Tests of `sorted_blocks` through what it shows: values of a few tokens, and of as many as need several blocks.
#![tactic(auto)]

#[cfg(test)]
mod maps;
