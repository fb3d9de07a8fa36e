//! Which rule a step breaks first, over what was looked up before.
//!
//! Each function is one table of rules, in the order in which the rules are told: it is given what a book knows of the
//! shard, the occurrence or the schedule, and answers the first broken rule with its values, or None where none is broken.
//! Nothing is looked up here, and nothing takes memory.
#![tactic(auto)]

mod changes;
mod enters;
mod entries;
mod moments;
mod tenures;
mod works;

pub use changes::{change_broken, zone_broken};
pub use enters::{enter_broken, first_astray, is_in_window};
pub use entries::{begin_broken, close_broken, end_broken};
pub use moments::{at_of, moment_broken};
pub use tenures::{lease_broken, release_broken};
pub use works::{complete_broken, swept_broken};
