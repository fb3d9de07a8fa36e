//! Sweeps: worker 0 does the work of every shard over whatever keeps steps, and sends each attempt by any link.
//!
//! `sweep_all` promises exactly which steps it adds, and which requests the link was handed; where it is cut, that a front of
//! these steps was added, and why. `post_one` sends one request that is ready.
#![tactic(auto)]

mod sweep;

pub use sweep::{ReadyRequest, post_one, sweep_all};
