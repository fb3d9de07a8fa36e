//! A map from client tokens to values, in blocks of at most 128 pairs, sorted by the tokens' bytes.
//!
//! A look-up is two binary searches, over the blocks and in one of them. `insert` takes no memory and moves at most the
//! 127 other pairs of a block: what it needs was made by `reserve`, which alone wants memory and alone splits a block.
//! Tokens come from strangers, and nothing here is worse for chosen ones: no hash, no long shift. Nothing is taken out.
#![tactic(auto)]

mod block;
mod blocks;
mod place;
mod search;

pub use blocks::SortedBlocks;
