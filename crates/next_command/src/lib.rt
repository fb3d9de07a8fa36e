//! The answer to 'when does this expression run next?', for who wants to see it before a schedule is created.
//!
//! `tell_next` writes the canonical spelling of an expression and its first instants in a zone, a line each, or the one line that
//! says why there are none to tell. It promises the text byte for byte, by what the expression spells and what the zone's bytes
//! are. It reads no journal and no clock.
#![tactic(auto)]

mod answer;
mod instant_lines;
mod telling;
mod zone_found;

pub use telling::{NextEnd, tell_next};
