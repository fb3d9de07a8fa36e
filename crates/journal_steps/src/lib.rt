//! What the file of a journal says when its records are read as steps.
//!
//! A file is no journal, or it is damaged at a gate, or it is the journal of one legal history: `specs/Journals` says which,
//! with no word of how it is found. Whatever it is, it is that alone. So whoever answers with one of the three answers what
//! the file determines. Here are the definitions and their laws, over any calendar, and no code that runs.
#![tactic(auto)]

mod examples;
mod one_way;

pub use examples::journals_on_examples;
pub use one_way::files_are_read_in_one_way;
