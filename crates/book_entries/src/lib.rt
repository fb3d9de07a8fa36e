//! What a Begin, an End and a Close make of the parts of a book.
//!
//! Each function takes one kind of step upon the parts, which then stand for the history with that step upon it. Each is
//! total and takes no memory; whether its step may follow is asked of the parts before.
//!
//! `refinish`, by which they write down since when a schedule is finished, serves each step that may change it.
#![tactic(auto)]

mod begins;
mod closes;
mod ends;
mod finishing;
mod letters;

pub use begins::begin;
pub use closes::close;
pub use ends::end;
pub use finishing::refinish;
pub use letters::queue_at;
