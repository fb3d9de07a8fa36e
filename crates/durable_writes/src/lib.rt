//! Entering what is due, and serving a write: each adds several steps to the history of its keeper, and draws words of a picker.
//!
//! `enter` puts the Enter that is wanted upon the history. `do_write` serves a write whole: a repeated or refused one adds
//! nothing; an accepted one adds the zone of its content where it has no bytes yet, the wanted Enters of what it touches, and its
//! Change. Where it is cut, a front of these was added and never all of them, and the cut has its cause. Only want of memory may
//! come at any time.
#![tactic(auto)]

mod accepting;
mod choosing;
mod entering;
mod onward;
mod write_fault;
mod writing;
mod zoning;

pub use entering::enter;
pub use write_fault::WriteFault;
pub use writing::do_write;
