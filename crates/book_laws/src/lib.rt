//! Facts of every legal history of the scheduler, over any calendar and with every kind of step. Each
//! is a theorem that stands on a function with no parameters and an empty body: its `ensures` is the
//! fact, and the call does nothing.
#![tactic(auto)]

mod attempts;
mod counts;
mod entries;
mod letters;
mod moments;
mod outcomes;
mod prefixes;
mod sweeps;
mod tokens;

pub use attempts::attempts_are_numbered;
pub use counts::counts_add_up;
pub use entries::entries_are_the_occurrences;
pub use letters::letters_are_owed;
pub use moments::moments_never_fall;
pub use outcomes::entries_are_decided_once;
pub use prefixes::prefixes_are_legal;
pub use sweeps::swept_leaves_nothing;
pub use tokens::tokens_stand_once;
