//! The top call of the scheduler: it runs the command that its words say over a source of bytes, a sink, a source of zones, a
//! picker of words and a link to targets.
//!
//! `run_words` promises which bytes it reads, writes and sends: each framed request of the source gets one response, in order,
//! byte for byte, over one legal history; and each attempt of that history is handed to the link once, by the text that its
//! schedule says. It promises nothing of what a real stream, folder or socket does, nor that there is memory.
#![tactic(auto)]

mod batch;
mod laws;
mod service;
mod words;

pub use words::run_words;
