//! The record of a step in a journal: one spelling for each step, as bytes that outlive the program.
//!
//! A payload is a tag, the moment and the fields of the step, one behind the other; `specs/Payload` says it as cells, and
//! `specs/Format` as a table of fields with their rules. [`write_step`] makes the frame of a valid step and takes no
//! memory. [`read_step`] gives a step exactly where the payload is that of a valid step, which is then the only one, and
//! else the first fault of the bytes at its place, whatever they are.
//!
//! Not promised is that there is memory for the texts and the list of a step, nor that a step may follow a history: that
//! its fields keep their limits is all that is looked at.
#![tactic(auto)]

mod change;
mod content;
mod dates;
mod enter;
mod examples;
mod fault;
mod fields;
mod frame_buf;
mod numbers;
mod put_change;
mod read;
mod reading;
mod steps;
mod words;
mod write;
mod writing;

pub use examples::format_on_examples;
pub use fault::StepFault;
pub use frame_buf::{FrameBuf, LONGEST_FRAME, LONGEST_PAYLOAD};
pub use reading::read_step;
pub use writing::write_step;
