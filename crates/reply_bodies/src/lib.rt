//! The bodies that answer calls: JSON (RFC 8259) without spaces, the members of each object in the order of their bytes.
//!
//! `encode` gives the one body that shows a reply, byte for byte. Whoever reads it as JSON finds what `specs/Bodies` lists,
//! a line for each member. Nothing here reads a body, or knows how an answer is framed.
#![tactic(auto)]

mod arns;
mod body;
mod examples;
mod execution;
mod groups;
mod letters;
mod messages;
mod replies;
mod schedule;
mod schedules;
mod words;

pub use examples::bodies_on_examples;
pub use messages::{encode_message, encode_refusal};
pub use replies::encode;
