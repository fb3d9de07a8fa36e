//! Changes with one byte changed, read beside the plain reader.
use crate::parts::{Part, payload_of};
use crate::plain_reader::fault_of_change;
use crate::samples::CHANGES;
use std::alloc::Global;
use std::test::Fail;
use step_codec::read_step;

/// Whether both readers find the same first fault.
fn agree(alloc: Global, payload: &[u8]) -> bool {
    read_step(alloc, payload).err() == fault_of_change(payload)
}

/// Whether they do where the byte at a place has this value.
fn agree_with(alloc: Global, payload: &mut [u8], at: usize, value: u8) -> bool {
    let Some(byte) = payload.get(at) else {
        return false;
    };
    let before = *byte;
    payload[at] = value;
    let same = agree(alloc, payload);
    payload[at] = before;
    same
}

/// The first place where they do not, each byte being set to 00 and to ff.
fn first_difference(alloc: Global, payload: &mut [u8]) -> Option<usize> {
    for at in 0..payload.len() {
        if !agree_with(alloc, payload, at, 0) || !agree_with(alloc, payload, at, 255) {
            return Some(at);
        }
    }
    None
}

fn difference_of(alloc: Global, parts: &[Part]) -> Result<Option<usize>, Fail> {
    let mut payload = payload_of(alloc, parts)?;
    if !agree(alloc, payload.as_slice()) {
        return Ok(Some(0));
    }
    Ok(first_difference(alloc, payload.as_mut_slice()))
}

/// The first change and place where they do not.
fn first_of_all(alloc: Global) -> Result<Option<(usize, usize)>, Fail> {
    for (number, parts) in CHANGES.iter().enumerate() {
        if let Some(at) = difference_of(alloc, parts)? {
            return Ok(Some((number, at)));
        }
    }
    Ok(None)
}

#[test]
fn each_byte_changed_has_the_fault_of_a_plain_reader(rt: HostRuntime) -> Result<(), Fail> {
    assert_eq!(rt; first_of_all(rt.alloc())?, None);
    Ok(())
}
