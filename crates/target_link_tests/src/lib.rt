//! What no clause of `target_link` says: outside values for its definitions, that each call succeeds where there is
//! memory, and what a real socket does.
#![tactic(auto)]

#[cfg(test)]
mod addresses;
#[cfg(test)]
mod requests;
#[cfg(test)]
mod scripts;
#[cfg(test)]
mod sockets;
#[cfg(test)]
mod verdicts;

#[cfg(test)]
use plain_words::Text;
#[cfg(test)]
use std::alloc::{AllocError, Global};

/// A text of these characters.
#[cfg(test)]
fn text(alloc: Global, characters: &str) -> Result<Text, AllocError> {
    Ok(Text::from_string(String::from_str(alloc, characters)?))
}
