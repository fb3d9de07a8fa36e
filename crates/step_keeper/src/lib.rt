//! What keeps a step: it lends its machine, makes room, and takes a step that may follow, or says why not.
//!
//! `Keeper` is what each kind promises. What is kept may be in doubt where a disk failed in the middle: `settle` ends the doubt,
//! and each call begins with it. `MemoryKeeper` is the kind that keeps a machine in memory, whose only refusal is want of
//! memory. Contracts speak of the histories that a keeper stands for since any start.
#![tactic(auto)]

mod fault;
mod keeper;
mod memory;

pub use fault::{DiskFault, KeepFault};
pub use keeper::Keeper;
pub use memory::MemoryKeeper;
