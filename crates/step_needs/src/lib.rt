//! What a step that may follow finds in the parts of a book.
//!
//! The functions that take a step upon the parts ask something of them: that no moment falls back, that an attempt which
//! ends is in the air, that a write has no fault. Where the parts stand for a history and a valid step may follow it, all
//! that is so but for the room, which is made before. Each is a theorem that stands on a function with no parameters and
//! an empty body: its `ensures` is the fact, and the call does nothing.
#![tactic(auto)]

mod entries;
mod tenures;
mod writes;

pub use entries::{begins_find_their_parts, closes_find_their_parts, ends_find_their_parts};
pub use tenures::tenures_find_their_parts;
pub use writes::{changes_find_their_parts, room_is_all_that_is_left};
