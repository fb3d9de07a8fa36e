//! A list of numbers that finds, from a place on, the first number that is at most a bound.
//!
//! `MinTree` is seen as its numbers and the room for more of them. A search goes up and down a tree of minima, so it looks
//! at as many nodes as the tree has levels, and a number is added or changed in as many writes. Only `reserve` takes
//! memory: two words a number, and at most four where the tree has just grown. What the numbers mean is the caller's.
#![tactic(auto)]

mod nodes;
mod tree;
mod walk;

pub use nodes::ABOVE_ALL;
pub use tree::MinTree;
