//! Steps that are read, shown, and written again.
ghost use Rattle.std.specs.Prelude.{◌≡◌};

use crate::parts::{Part, payload_of};
use crate::samples::{CHANGES, LARGEST, OTHERS, ZONE};
use sched_plain::{Moment, Step};
use std::alloc::{AllocError, Global};
use std::test::Fail;
use step_codec::{FrameBuf, StepFault, read_step, write_step};

/// The frame of the first attempt at 1000 of the occurrence at 1000 of incarnation 1, with epoch 1.
const FIRST_BEGIN: [u8; 36] = [
    0x00, 0x00, 0x00, 0x1f, 7, 0, 0, 0, 0, 0, 0, 0x03, 0xe8, 0, 0, 0, 1, 0, 0, 0, 0, 0, 0, 0x03,
    0xe8, 0, 1, 0, 0, 0, 0, 0, 0, 0, 1, 0,
];

/// Writes that step.
fn write_first_begin(into: &mut FrameBuf) {
    let step = Step::Begin {
        at: Moment(1000),
        inc: 1,
        instant: 1000,
        number: 1,
        epoch: 1,
    };
    write_step(&step, into);
}

#[test]
fn the_frame_of_a_begin(rt: HostRuntime) -> Result<(), Fail> {
    let mut buffer = FrameBuf::new(rt.alloc())?;
    write_first_begin(&mut buffer);
    assert_eq!(rt; buffer.as_bytes(), FIRST_BEGIN.as_slice());
    Ok(())
}

/// Whether these bytes are the frame of a payload.
fn is_frame(frame: &[u8], payload: &[u8]) -> bool {
    match frame {
        [a, b, c, d, inside @ .., 0] => {
            u32::from_be_bytes([*a, *b, *c, *d]) as usize == payload.len() && inside == payload
        }
        _ => false,
    }
}

/// Reads a payload and writes its step.
fn write_again(alloc: Global, payload: &[u8], into: &mut FrameBuf) -> Option<StepFault> {
    match read_step(alloc, payload) {
        Ok(step) => {
            write_step(&step, into);
            None
        }
        Err(fault) => Some(fault),
    }
}

/// Whether a payload is read, and its step written as its own frame.
fn is_kept(alloc: Global, payload: &[u8], into: &mut FrameBuf) -> bool {
    write_again(alloc, payload, into).is_none() && is_frame(into.as_bytes(), payload)
}

fn is_kept_of(alloc: Global, parts: &[Part], into: &mut FrameBuf) -> Result<bool, AllocError> {
    let payload = payload_of(alloc, parts)?;
    Ok(is_kept(alloc, payload.as_slice(), into))
}

/// The first of some payloads that is not kept.
fn first_lost(
    alloc: Global,
    samples: &[&[Part]],
    into: &mut FrameBuf,
) -> Result<Option<usize>, AllocError> {
    for (number, parts) in samples.iter().enumerate() {
        if !is_kept_of(alloc, parts, into)? {
            return Ok(Some(number));
        }
    }
    Ok(None)
}

/// The first that is not kept, of the changes and of the other kinds, in one buffer.
fn lost(alloc: Global) -> Result<[Option<usize>; 2], AllocError> {
    let mut buffer = FrameBuf::new(alloc)?;
    let change = first_lost(alloc, &CHANGES, &mut buffer)?;
    let other = first_lost(alloc, &OTHERS, &mut buffer)?;
    Ok([change, other])
}

#[test]
fn each_kind_is_read_and_written(rt: HostRuntime) -> Result<(), Fail> {
    assert_eq!(rt; lost(rt.alloc())?, [None, None]);
    Ok(())
}

/// The payload of an Enter of so many pairs.
fn enter_of(alloc: Global, count: u16) -> Result<Vec<u8>, AllocError> {
    let mut bytes = payload_of(
        alloc,
        &[
            Part::One(4),
            Part::Eight(1000),
            Part::Four(1),
            Part::Two(count),
        ],
    )?;
    for k in 0..count {
        bytes.extend_from_slice(&u64::from(k).to_be_bytes())?;
        bytes.extend_from_slice(&60_u32.to_be_bytes())?;
    }
    Ok(bytes)
}

/// What is answered for an Enter of so many pairs.
fn enter_fault(alloc: Global, count: u16) -> Result<Option<StepFault>, AllocError> {
    let payload = enter_of(alloc, count)?;
    Ok(read_step(alloc, payload.as_slice()).err())
}

/// How long the frames are of an Enter of 256 pairs, of the largest change, and of the largest zone.
fn largest_frames(alloc: Global, buffer: &mut FrameBuf) -> Result<[usize; 3], AllocError> {
    let enter = enter_of(alloc, 256)?;
    let enter = frame_length(alloc, enter.as_slice(), buffer);
    let change = payload_of(alloc, &LARGEST)?;
    let change = frame_length(alloc, change.as_slice(), buffer);
    let zone = payload_of(
        alloc,
        &[
            Part::One(2),
            Part::Eight(1000),
            Part::Pieces(1, "z", 50),
            Part::Pieces(4, "z", 65_536),
        ],
    )?;
    let zone = frame_length(alloc, zone.as_slice(), buffer);
    Ok([enter, change, zone])
}

/// How long the frame of a payload is; 0 where it is not kept.
fn frame_length(alloc: Global, payload: &[u8], into: &mut FrameBuf) -> usize {
    if is_kept(alloc, payload, into) {
        into.as_bytes().len()
    } else {
        0
    }
}

#[test]
fn the_largest_steps_fit_the_buffer(rt: HostRuntime) -> Result<(), Fail> {
    let mut buffer = FrameBuf::new(rt.alloc())?;
    assert_eq!(rt;
        largest_frames(rt.alloc(), &mut buffer)?,
        [3092, 87_099, 65_605]
    );
    Ok(())
}

/// The answers for Enters of no pair, of one, of 256 and of 257.
fn enter_faults(alloc: Global) -> Result<[Option<StepFault>; 4], AllocError> {
    let none = enter_fault(alloc, 0)?;
    let one = enter_fault(alloc, 1)?;
    let most = enter_fault(alloc, 256)?;
    let more = enter_fault(alloc, 257)?;
    Ok([none, one, most, more])
}

#[test]
fn an_enter_has_1_to_256_pairs(rt: HostRuntime) -> Result<(), Fail> {
    let bad = Some(StepFault::BadField { at: 13 });
    assert_eq!(rt; enter_faults(rt.alloc())?, [bad, None, None, bad]);
    Ok(())
}

/// The step that a payload spells, as text.
fn show(alloc: Global, payload: &[u8], told: &mut String) -> Result<(), Fail> {
    let step = read_step(alloc, payload);
    writeln!(told, "{step:?}")?;
    Ok(())
}

/// The steps of some payloads, a line for each.
fn show_all(alloc: Global, samples: &[&[Part]], told: &mut String) -> Result<(), Fail> {
    for parts in samples {
        let payload = payload_of(alloc, parts)?;
        show(alloc, payload.as_slice(), told)?;
    }
    Ok(())
}

const CHANGES_SHOWN: &str = "\
     Ok(Change { at: Moment(1000), write: CreateSchedule { group: Name { text: \"default\" }, name: Name { text: \"report\" }, token: Some(Token { text: \"token-1\" }), content: Schedule { description: Text { text: \"once an hour, é\" }, text: Text { text: \"rate(2 hours)\" }, expr: Rate { count: 2, unit: Hour }, zone: ZoneName { text: \"Europe/Paris\" }, start: None, finish: Some(2000), enabled: true, delete_after: false, window: 15, policy: Policy { retries: 185, age: 86400 }, target: Text { text: \"http://127.0.0.1:9000/hook\" }, role: Text { text: \"arn:aws:iam::000000000000:role/r\" }, queue: Some(Text { text: \"arn:aws:sqs:local:000000000000:dead\" }), input: Some(Text { text: \"{}\" }) } } })\n\
     Ok(Change { at: Moment(1000), write: UpdateSchedule { group: Name { text: \"g\" }, name: Name { text: \"a\" }, token: None, content: Schedule { description: Text { text: \"\" }, text: Text { text: \"rate(2 hours)\" }, expr: Rate { count: 2, unit: Hour }, zone: ZoneName { text: \"UTC\" }, start: Some(1500), finish: None, enabled: false, delete_after: true, window: 0, policy: Policy { retries: 0, age: 60 }, target: Text { text: \"t\" }, role: Text { text: \"r\" }, queue: None, input: None } } })\n\
     Ok(Change { at: Moment(1000), write: DeleteSchedule { group: Name { text: \"g\" }, name: Name { text: \"a\" }, token: Some(Token { text: \"t\" }) } })\n\
     Ok(Change { at: Moment(1000), write: CreateGroup { name: Name { text: \"g\" }, token: Some(Token { text: \"t\" }) } })\n\
     Ok(Change { at: Moment(1000), write: DeleteGroup { name: Name { text: \"g\" }, token: None } })\n\
     ";

const OTHERS_SHOWN: &str = "\
     Ok(Boot { at: Moment(1000) })\n\
     Ok(Zone { at: Moment(1000), name: ZoneName { text: \"Europe/Paris\" }, bytes: Blob { bytes: [84, 90, 105, 102, 50] } })\n\
     Ok(Enter { at: Moment(1000), inc: 1, pairs: Items { items: [Pair { instant: 1060, chosen: 1060 }, Pair { instant: 1120, chosen: 1720 }] } })\n\
     Ok(Lease { at: Moment(1000), shard: 6, worker: 9, epoch: 3, until: 1060 })\n\
     Ok(Lease { at: Moment(7258118399), shard: 6, worker: 9, epoch: 3, until: 7258118459 })\n\
     Ok(Release { at: Moment(1000), shard: 6, worker: 9, epoch: 3 })\n\
     Ok(Begin { at: Moment(1000), inc: 1, instant: 900, number: 2, epoch: 3 })\n\
     Ok(End { at: Moment(1000), inc: 1, instant: 900, number: 2, verdict: Final, status: 503 })\n\
     Ok(Close { at: Moment(1000), inc: 1, instant: 900, reason: Age })\n\
     Ok(Complete { at: Moment(1000), inc: 1 })\n\
     Ok(Swept { at: Moment(1000), shard: 6 })\n\
     ";

#[test]
fn changes_are_read_as_their_steps(rt: HostRuntime) -> Result<(), Fail> {
    let mut told = String::new(rt.alloc());
    show_all(rt.alloc(), &CHANGES, &mut told)?;
    assert_eq!(rt; told.as_str(), CHANGES_SHOWN);
    Ok(())
}

#[test]
fn other_kinds_are_read_as_their_steps(rt: HostRuntime) -> Result<(), Fail> {
    let mut told = String::new(rt.alloc());
    show_all(rt.alloc(), &OTHERS, &mut told)?;
    assert_eq!(rt; told.as_str(), OTHERS_SHOWN);
    Ok(())
}
