//! Tests of `book_counts`: the report of a book that has no steps.
#![tactic(auto)]

#[cfg(test)]
mod empty;
