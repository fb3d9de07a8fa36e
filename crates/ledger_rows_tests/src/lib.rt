//! Tests of the ledger, through its public face.
#![tactic(auto)]

#[cfg(test)]
mod kit;
#[cfg(test)]
mod late;
#[cfg(test)]
mod numbers;
#[cfg(test)]
mod reads;
#[cfg(test)]
mod runs;
