//! What the program writes about a journal, line by line: the report of its counts, and what a look at the file found.
//!
//! Promised is each byte of both texts; every line, the last too, ends with one line feed. Where the counts come from,
//! and how a file is looked at, is not known here.
#![tactic(auto)]

mod finding;
mod line;
mod reports;

pub use finding::{Finding, check_line};
pub use reports::report;
