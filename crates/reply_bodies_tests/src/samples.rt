//! Words and replies that the tests show. Where memory is wanted the test ends, so that each function has one exit.
use reply_bodies::encode;
use sched_calls::{ReadReply, Reply};
use sched_plain::{Name, Text, ZoneName};
use std::alloc::Global;
use std::process::Abort;

/// The body of a reply.
pub fn body_of(rt: &impl Abort, alloc: Global, reply: &Reply) -> Vec<u8> {
    encode(alloc, reply).expect(rt, "memory for a body")
}

/// The body that shows what is read.
pub fn read_body(rt: &impl Abort, alloc: Global, reply: ReadReply) -> Vec<u8> {
    body_of(rt, alloc, &Reply::Read(reply))
}

pub fn name_of(rt: &impl Abort, alloc: Global, text: &str) -> Name {
    Name::read(alloc, text.as_bytes()).expect(rt, "a name")
}

pub fn zone_of(rt: &impl Abort, alloc: Global, text: &str) -> ZoneName {
    ZoneName::read(alloc, text.as_bytes()).expect(rt, "a zone's name")
}

pub fn text_of(rt: &impl Abort, alloc: Global, text: &str) -> Text {
    Text::from_string(String::from_str(alloc, text).expect(rt, "memory for a text"))
}
