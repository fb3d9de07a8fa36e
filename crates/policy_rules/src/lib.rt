//! The rules of what users buy: where in its window an occurrence is sent, how long to wait between attempts, where an
//! entry stands at a moment, and who holds a shard until when.
//!
//! Each answer is the rule of the history's definitions, exactly; what is refused changes nothing, and nothing here takes
//! memory. What the rules take from outside, words and moments, comes from a `Picker` and a `Clock`.
#![tactic(auto)]

mod clock;
mod delays;
mod examples;
mod leases;
mod list_clock;
mod list_picker;
mod pcg_picker;
mod picker;
mod refusals;
mod standings;
mod window;

pub use clock::Clock;
pub use delays::delay;
pub use examples::rules_on_examples;
pub use leases::Leases;
pub use list_clock::ListClock;
pub use list_picker::ListPicker;
pub use pcg_picker::PcgPicker;
pub use picker::Picker;
pub use refusals::{Held, Stale};
pub use standings::{LAST_CHOSEN, standing};
pub use window::chosen;
