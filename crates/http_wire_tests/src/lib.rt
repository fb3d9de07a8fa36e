//! Tests of `http_wire` by its public face: what no clause says of real readers and writers, and the text of errors.
#![tactic(auto)]

#[cfg(test)]
mod adapters;
#[cfg(test)]
mod errors;
