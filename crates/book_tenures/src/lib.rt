//! What the steps of tenure and of times make of the parts of a book: a start, a lease and its end, a sweep, a zone.
//!
//! Each function takes one kind of step upon the parts: where they stood for a history that the step may follow, they stand
//! for that history with the step upon it. None fails and none takes memory. Whether a step may follow is asked before.
#![tactic(auto)]

mod boots;
mod leasing;
mod releases;
mod sweeps;
mod zones;

pub use boots::boot;
pub use leasing::lease;
pub use releases::release;
pub use sweeps::swept;
pub use zones::zone;
