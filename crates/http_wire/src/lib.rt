//! HTTP/1.1 (RFC 9112) over sources and sinks of bytes.
//!
//! Promised is how requests stand in a stream of bytes and which one was read, not one byte more, and the bytes of a
//! response. Devices in memory tell what they hold and what they got; real ones promise the shape of their answers and
//! their counts of faults. Which requests there are, and what they are answered, is not known here.
#![tactic(auto)]

mod digits;
mod framing;
mod limits;
mod refusal;
mod request;
mod response;
mod sink;
mod source;

pub use digits::{MOST_DIGITS, number_within};
pub use framing::{FrameFault, frames_one_list, read_request};
pub use limits::{BODY_LIMIT, HEAD_LIMIT, HEADER_LIMIT, LENGTH_DIGITS};
pub use refusal::{memory_response, write_error};
pub use request::HttpRequest;
pub use response::write_response;
pub use sink::{MemSink, RealSink, Sink, SinkFailed, send_all};
pub use source::{MemSource, RealSource, Source, SourceFailed};
