//! The entries of one incarnation, kept in little memory: 36 bytes an entry, its policy and its attempts beside them.
//!
//! `EntryLines` stands for a list of rows, each an occurrence's instant, what is filed for it, and its attempts. The attempts of
//! all entries lie in one vector, those of an entry side by side, in the order of the entries. What changes an entry takes no
//! memory: `reserve` and `reserve_begin` make the room.
#![tactic(auto)]

mod attempts;
mod entry_lines;
mod halves;
mod line;
mod policies;

pub use entry_lines::{EntryLines, MOST_ENTRIES};
