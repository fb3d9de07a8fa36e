//! Tests of `zone_occ` through what it shows: which bytes are zones, instants of civil seconds and of
//! expressions, and the two sources of the bytes of zones.
#![tactic(auto)]

#[cfg(test)]
mod batches;
#[cfg(test)]
mod bytes;
#[cfg(test)]
mod files;
#[cfg(test)]
mod instants;
#[cfg(test)]
mod next_instants;
#[cfg(test)]
mod samples;
