//! What an Enter makes of the parts of a book: the entries of its pairs, and the dates of its incarnation anew.
//!
//! `enter` takes the step upon the parts, which then stand for the history with that step upon it. It is total and takes no
//! memory, and an Enter of many pairs costs one search of the expression. Whether the step may follow is asked of the parts
//! before; where it may, `enters_find_their_parts` says that all holds that `enter` wants, but for room.
#![tactic(auto)]

mod behind;
mod enters;
mod finds;
mod policy;

pub use enters::enter;
pub use finds::enters_find_their_parts;
