//! What a Complete makes of the parts of a book: a finished schedule is removed.
//!
//! `complete` takes the step upon the parts, which then stand for the history with that step upon it. It is total and takes
//! no memory. Whether the step may follow is asked of the parts before; where it may, `completes_find_their_parts` says that
//! all holds that `complete` wants, but for the count of steps.
#![tactic(auto)]

mod completions;
mod finds;

pub use completions::complete;
pub use finds::completes_find_their_parts;
