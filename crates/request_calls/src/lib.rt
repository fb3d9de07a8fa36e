//! What a request asks for: the moment that it tells, and its call.
//!
//! `decode` answers the call that `call_of` (specs/Calls) reads off the request, or the first rule that the request breaks:
//! routes, then the query, then the body and its members, then the fields in their order. A write that it answers is valid and
//! its target is an address. `moment_of` reads the X-Moment header. Want of memory alone says nothing.
#![tactic(auto)]

mod asked;
mod decoding;
mod id;
mod moment;
mod put;
mod query;
mod reads;
mod route;

pub use decoding::decode;
pub use moment::moment_of;
pub use request_fields::DecodeFault;
