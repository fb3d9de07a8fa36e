//! The frame of a step.
ghost use Rattle.std.specs.Prelude.{◌≡◌, ◌≤◌, length};
ghost use Rattle.sched_plain.specs.Validity.{IsValid};
ghost use Rattle.step_codec.specs.Payload.{frame, payload_of};

use crate::frame_buf::{FrameBuf, LONGEST_PAYLOAD};
use crate::write::put_step;
use sched_plain::Step;

/// Writes the frame of a valid step, in place of what was in the buffer: the length of its payload in
/// four bytes, the payload, and a byte 0 behind it. Takes no memory.
pub fn write_step(step: &Step, into: &mut FrameBuf)
    requires { IsValid step.now }
    ensures frame { into.new.bytes ≡ frame (payload_of step.now) }
    // The payload is as long as a journal's record may be.
    ensures some { 1 ≤ length (payload_of step.now) }
    ensures short { length (payload_of step.now) ≤ LONGEST_PAYLOAD }
{
    into.clear();
    into.put_32(0);
    put_step(into, step);
    let length = into.len() - 4;
    into.put_8(0);
    into.set_front(length as u32);
}
