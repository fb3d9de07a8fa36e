//! What no clause of `turn_desk` says: that turns come, to one thread and to several, and what a desk's value is in the end.
#![tactic(auto)]

#[cfg(test)]
mod crowd;
#[cfg(test)]
mod log;
#[cfg(test)]
mod tests;
