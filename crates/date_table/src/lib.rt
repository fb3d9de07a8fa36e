//! The next date of each incarnation, or that it has none, and the first of a shard whose date has come.
//!
//! Incarnations are numbered from 1, and spread over eight shards. A search looks at as many numbers as a tree of minima
//! has levels, whatever the moment. Only `reserve` takes memory. What a date is the date of is the caller's.
#![tactic(auto)]

mod places;
mod table;

pub use table::DateTable;
