//! Tests of `expr_grammar`: what texts spell, their first faults, and how expressions are printed.
#![tactic(auto)]

#[cfg(test)]
mod printing;
#[cfg(test)]
mod reading;
