//! The machine of indexes: which step may follow what happened, what it makes of the book, and what the history says.
//!
//! `Book` is made of the parts that `book_parts` judges by and the crates beside it change; it holds no list of steps, since
//! each part stands for what it reads of the history. What a machine promises is said by `step_machine::Machine`.
#![tactic(auto)]

mod book;
mod room;
mod taking;

pub use book::Book;
