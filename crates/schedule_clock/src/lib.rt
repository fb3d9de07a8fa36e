//! When a schedule acts next: the instants of a content in a real time zone, within its dates, while it is enabled.
//!
//! `next_instant` answers the first from a moment on by one search, and takes no memory; `instants` answers the first
//! of a span in order, none left out. What is answered are the occurrences of an item with this content that begins no
//! later than the search: an expression's instants, between StartDate and EndDate where it is a rate or a cron.
#![tactic(auto)]

mod dates;
mod first;
mod next;

pub use first::instants;
pub use next::next_instant;
