//! Tests of `zone_shelf` through what it shows: two names, a name that is not kept, new bytes, and bytes that are no zone.
#![tactic(auto)]

#[cfg(test)]
mod shelves;
