//! Facts of sweeps, of catching up and of serving, over any calendar and with every kind of step. Each is a theorem that
//! stands on a function with no parameters and an empty body: its `ensures` is the fact, and the call does nothing.
#![tactic(auto)]

mod adding;
mod determined;
mod ending;
mod following;
mod holding;
mod measure;
mod serving;
mod validity;
mod waiting;

pub use adding::serving_only_adds;
pub use determined::serving_has_one_result;
pub use ending::serving_ends;
pub use following::offered_steps_may_follow;
pub use holding::serving_holds_alone;
pub use measure::work_lessens;
pub use serving::serving_keeps_histories_legal;
pub use validity::offered_steps_are_valid;
pub use waiting::taken_shards_wait_for_nothing;
