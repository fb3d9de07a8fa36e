//! Tests of `step_codec` by payloads that are written out: what is read and written again, faults at their places, and a
//! plain reader beside it.
#![tactic(auto)]

#[cfg(test)]
mod changed_bytes;
#[cfg(test)]
mod field_ends;
#[cfg(test)]
mod fronts;
#[cfg(test)]
mod parts;
#[cfg(test)]
mod plain_reader;
#[cfg(test)]
mod round_trips;
#[cfg(test)]
mod samples;
