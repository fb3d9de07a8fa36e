//! The bytes of time zones by name, each kept with the zone that was read from them.
//!
//! A name is found in the logarithm of how many there are, and no zone is read twice. `add` takes no memory: what it
//! needs, the zone read from the bytes too, was made by `reserve`. Only bytes that are a zone are kept. UTC, which has
//! no bytes, is not kept here.
#![tactic(auto)]

mod place;
mod places;
mod read_zone;
mod shelf;

pub use shelf::ZoneShelf;
