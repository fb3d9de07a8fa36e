//! Pages that tell, line by line, what is done to a machine of steps and what it answers, for tests and measures.
//!
//! A line is a step in words (`1000 lease 0 7 1`), a sweep of all shards (`1000 sweep`), a question (`? work 0 4600`), a remark
//! behind `#`, or empty. What was answered stands behind ` -> `; a step that was taken has no answer. `play` does what a page
//! tells and gives the page back with what was in fact answered, so that a page which comes back unchanged is true.
//! Contents of schedules are read from the bytes of a request, as the service reads them.
#![tactic(auto)]

mod asking;
mod bodies;
mod offers;
mod pages;
mod pairs;
mod questions;
mod steps;
mod sweeps;
mod valid;
mod words;
mod writes;

pub use offers::offered;
pub use pages::play;
pub use steps::step_of;
pub use sweeps::{Replies, Swept, next_step, sweep, sweep_shard};
