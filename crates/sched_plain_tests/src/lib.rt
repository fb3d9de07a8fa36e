//! Tests of the plain words and of the types of a history, through their public face.
#![tactic(auto)]

#[cfg(test)]
mod words;
#[cfg(test)]
mod writes;
