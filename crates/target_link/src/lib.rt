//! What goes to a target and what comes back: the address of a target, the request of an attempt, the verdict of
//! a reply, and the links that carry the two.
//!
//! Promised are the exact text of a request, the exact verdict of a reply, and that a link which tells names what
//! it sent, in order. What a real socket gives is not promised.
#![tactic(auto)]

mod address;
mod keyword;
mod link;
mod request;
mod script_link;
mod spares;
mod tcp_link;
mod time;
mod verdict;

pub use address::{Address, LoopHost, Spot, SpotFault, address_of};
pub use link::{Heard, LONGEST_REPLY, Link, Lost, Sent};
pub use request::{BeginFacts, request_of};
pub use script_link::ScriptLink;
pub use tcp_link::TcpLink;
pub use verdict::verdict_of;
