//! The ledger: an entry of each occurrence, with its policy and its attempts.
//!
//! A `Ledger` stands for the list of calls that it was given, and answers what the definitions of a history read off those
//! calls. What changes it takes no memory: `reserve_enter` and `reserve_begin` make the room, the latter also that of the
//! attempt's end. When an entry is entered, begun or closed is for the caller to judge, by what `filed` tells.
#![tactic(auto)]

mod blocks;
mod counted_lines;
mod counts;
mod lane;
mod ledger;
mod open_entries;
mod question;
mod row;
mod shelves;
mod tally;
mod waiting;
mod wants;

pub use counts::EntryCounts;
pub use ledger::Ledger;
