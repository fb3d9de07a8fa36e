//! The expressions of schedules, `at(..)`, `rate(..)` and `cron(..)`, read from text and printed
//! (EventBridge Scheduler User Guide, "Schedule types"). What a text spells, its first fault and the
//! canonical spelling are defined in `expressions`; nothing here keeps state.
#![tactic(auto)]

mod at;
mod bytes;
mod cron;
mod cron_field;
mod cut;
mod day_rule;
mod fault;
mod field;
mod form;
mod item;
mod items;
mod print;
mod print_at;
mod print_cron;
mod print_number;
mod print_rate;
mod print_set;
mod rate;
mod read;
mod row;
mod value;
mod value_set;
mod words;

pub use fault::ExprFault;
pub use print::print_expr;
pub use read::read_expr;
