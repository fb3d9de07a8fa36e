//! The history of the scheduler: what steps it is made of, what is read off it, and which step may follow.
//!
//! The definitions, which every crate above cites, stand in `specs/`; the types that they speak of here. The plain words,
//! the words for faults and the expressions below are shown again, so that a crate above names them from here. Nothing
//! here keeps state or touches the outside.
#![tactic(auto)]

mod counts;
mod entry;
mod examples;
mod holder;
mod letter;
mod outcome;
mod row;
mod schedule;
mod standing;
mod step;
mod why;
mod work;
mod write;

pub use counts::Counts;
pub use entry::{Attempt, Attempts, Entry, Fate, Filed, Last};
pub use examples::definitions_on_examples;
pub use expressions::{Civil, CronSets, DayRule, Expr, Unit};
pub use holder::Holder;
pub use letter::{Letter, Letters};
pub use outcome::{Outcome, Reason};
pub use outside::FailingCalls;
pub use plain_words::{
    Blob, Items, LAST_MOMENT, LEASE_SECONDS, LEAST_AGE, LONGEST_AGE, LONGEST_ARN,
    LONGEST_DESCRIPTION, LONGEST_EXPRESSION, LONGEST_INPUT, LONGEST_NAME, LONGEST_TOKEN,
    LONGEST_WINDOW, LONGEST_ZONE, LONGEST_ZONE_NAME, MOST_GROUPS, MOST_INCARNATIONS, MOST_PAIRS,
    MOST_RETRIES, MOST_SCHEDULES, Moment, Name, NameFault, SHARDS, Text, TextFault, Token, TryCopy,
    Verdict, ZoneName, copy_option, print_id, read_id, shard_of,
};
pub use row::{GroupRow, GroupRows, Revision, Revisions, Row};
pub use schedule::{Policy, Schedule};
pub use standing::Standing;
pub use step::{Pair, Pairs, Step};
pub use why::{RowFault, Why};
pub use work::Work;
pub use write::Write;
