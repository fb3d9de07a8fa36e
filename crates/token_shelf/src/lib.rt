//! The client tokens that accepted writes kept, each with its write and the place of its step.
//!
//! A token is kept for good. `look` says whether it is new, was kept by the same write, group and name included, or by
//! another one, and at which step. `keep` takes no memory: what it needs was made by `reserve`. Tokens come from
//! strangers, and no choice of them makes a look-up long.
#![tactic(auto)]

mod answer;
mod shelf;

pub use answer::TokenAnswer;
pub use shelf::Shelf;
