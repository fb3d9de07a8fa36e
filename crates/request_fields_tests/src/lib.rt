//! Tests of `request_fields`: each field at both ends of its rule, members that no table has, and what is no body.
//!
//! A table is a text of lines, ` | ` between their columns: what is added to a body that has no more than it needs, and a piece of
//! what is answered. A member that is repeated counts as its last, so a line may also say another value of one that is there.
#![tactic(auto)]

#[cfg(test)]
mod bodies;
#[cfg(test)]
mod moments;
#[cfg(test)]
mod order;
#[cfg(test)]
mod samples;
#[cfg(test)]
mod targets;
#[cfg(test)]
mod texts;
#[cfg(test)]
mod unknown;
#[cfg(test)]
mod windows;
