//! Tests of `request_calls`: each route with each method, each name of a query at both ends of its rule, and whole requests.
//!
//! A table is a text of lines, ` | ` between their columns: a method and a target, and a piece of what is answered.
#![tactic(auto)]

#[cfg(test)]
mod groups;
#[cfg(test)]
mod lists;
#[cfg(test)]
mod moments;
#[cfg(test)]
mod puts;
#[cfg(test)]
mod queries;
#[cfg(test)]
mod routes;
#[cfg(test)]
mod samples;
