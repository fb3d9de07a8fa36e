//! The plain words of the scheduler: names, client tokens, names of time zones, texts, bytes, lists, moments, ids of
//! occurrences, verdicts, and the limits that all of it keeps.
//!
//! Words are read exactly: a reader gives the word where the bytes have no fault, and else their first fault at its place.
//! Nothing here knows what a schedule is.
#![tactic(auto)]

mod blob;
mod copying;
mod id;
mod items;
mod limits;
mod moment;
mod name;
mod text;
mod token;
mod verdict;
mod word;
mod zone_name;

pub use blob::Blob;
pub use copying::{TryCopy, copy_option};
pub use id::{print_id, read_id, shard_of};
pub use items::Items;
pub use limits::{
    LAST_MOMENT, LEASE_SECONDS, LEAST_AGE, LONGEST_AGE, LONGEST_ARN, LONGEST_DESCRIPTION,
    LONGEST_EXPRESSION, LONGEST_INPUT, LONGEST_NAME, LONGEST_TOKEN, LONGEST_WINDOW, LONGEST_ZONE,
    LONGEST_ZONE_NAME, MOST_GROUPS, MOST_INCARNATIONS, MOST_PAIRS, MOST_RETRIES, MOST_SCHEDULES,
    SHARDS,
};
pub use moment::Moment;
pub use name::Name;
pub use text::{Text, TextFault};
pub use token::Token;
pub use verdict::Verdict;
pub use word::NameFault;
pub use zone_name::ZoneName;
