//! Which histories the images of a disk stand for while the steps of a history are appended to its journal.
//!
//! `Between` says that each file that a crash left since some moment is the journal of a history between the one then and the one
//! now, but for one step in doubt where a call failed. The laws carry it over the calls of a journal: an append that was done,
//! one that failed, and a settling. They are over any calendar and any disk; no code runs.
#![tactic(auto)]

mod laws;

pub use laws::images_stand_between;
