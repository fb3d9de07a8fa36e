//! What a book knows, part by part, and what is answered from it: which step may follow, and what is next to be done.
//!
//! `Parts` holds the parts of a book, each of which stands for what it reads of a legal history under the calendar of real
//! time zones. Its calls only look, and no one goes over all schedules or all entries: what a step makes of the parts is
//! written elsewhere, over their fields. Nothing here keeps a step.
#![tactic(auto)]

mod changes;
mod empty;
mod enters;
mod entries;
mod following;
mod judge;
mod parts;
mod reads;
mod touching;
mod windows;
mod works;

pub use changes::{fault_of, is_utc, token_of, zone_of};
pub use enters::zone_named;
pub use following::LegalFault;
pub use parts::Parts;
pub use touching::first_open;
