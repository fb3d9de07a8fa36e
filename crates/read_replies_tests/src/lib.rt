//! Tests of `read_replies` over a book of no steps: what each read shows of it, and what it is refused.
#![tactic(auto)]

#[cfg(test)]
mod reads;
#[cfg(test)]
mod tellings;
