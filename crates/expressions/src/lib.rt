//! Schedule expressions: their types, the years of civil time, and what a text says.
//!
//! The definitions, which every crate that reads, prints or follows an expression cites, stand in `specs/`: the real civil
//! seconds, what a text spells, its first fault, its canonical spelling, and what a calendar tells of an expression. No
//! code here reads a text: that is `expr_grammar`.
#![tactic(auto)]

mod examples;
mod expression;
mod years;

pub use examples::spellings_on_examples;
pub use expression::{Civil, CronSets, DayRule, Expr, Unit};
pub use years::{FIRST_YEAR, LAST_YEAR, UPPER_YEAR};
