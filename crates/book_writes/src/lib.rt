//! What a Change makes of the parts of a book: schedules and groups, the entries that it cancels, the token that it keeps,
//! and the dates of what it touches and creates.
//!
//! `first_instant`, by which it dates a content, serves each step that moves a next instant.
#![tactic(auto)]

mod dates;
mod redate;
mod taking;
mod touched;
mod zones;

pub use taking::change;
pub use zones::first_instant;
