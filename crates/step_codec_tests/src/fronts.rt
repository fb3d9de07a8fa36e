//! Payloads that end before their last field does, and payloads with bytes behind it.
use crate::parts::{Part, payload_of, put};
use crate::samples::{BOOT, CHANGES, CREATION, END, ENTER, LEASE, OTHERS};
use std::alloc::Global;
use std::test::Fail;
use step_codec::{StepFault, read_step};

fn fault_of(alloc: Global, payload: &[u8]) -> Option<StepFault> {
    read_step(alloc, payload).err()
}

/// The first proper front, of so many bytes or more, that is not too short.
fn first_not_short(alloc: Global, payload: &[u8], from: usize) -> Option<usize> {
    for length in from..payload.len() {
        if fault_of(alloc, &payload[..length]) != Some(StepFault::Short) {
            return Some(length);
        }
    }
    None
}

/// Whether every proper front of a payload is too short.
fn has_short_fronts(alloc: Global, parts: &[Part]) -> Result<bool, Fail> {
    let payload = payload_of(alloc, parts)?;
    Ok(first_not_short(alloc, payload.as_slice(), 0).is_none())
}

/// The first of some payloads with a front that is not.
fn first_with_another(alloc: Global, samples: &[&[Part]]) -> Result<Option<usize>, Fail> {
    for (number, parts) in samples.iter().enumerate() {
        if !has_short_fronts(alloc, parts)? {
            return Ok(Some(number));
        }
    }
    Ok(None)
}

#[test]
fn every_front_of_a_change_is_short(rt: HostRuntime) -> Result<(), Fail> {
    assert_eq!(rt; first_with_another(rt.alloc(), &CHANGES)?, None);
    Ok(())
}

#[test]
fn every_front_of_another_step_is_short(rt: HostRuntime) -> Result<(), Fail> {
    assert_eq!(rt; first_with_another(rt.alloc(), &OTHERS)?, None);
    Ok(())
}

/// Whether every front is too short that ends inside this field.
fn is_short_inside(alloc: Global, before: &[Part], part: Part) -> Result<bool, Fail> {
    let mut payload = payload_of(alloc, before)?;
    let begin = payload.len();
    put(&mut payload, part)?;
    Ok(first_not_short(alloc, payload.as_slice(), begin).is_none())
}

/// Fields that break their rule where they are whole: a payload, the field, and what stands in its place.
const BAD: [(&[Part<'static>], usize, Part<'static>); 8] = [
    (&BOOT, 1, Part::Eight(u64::MAX)),
    (&CREATION, 5, Part::S1("a b")),
    (&CREATION, 7, Part::S2("rate(0 hours)")),
    (&CREATION, 10, Part::Date(Some(u64::MAX))),
    (&CREATION, 15, Part::Four(59)),
    (&ENTER, 5, Part::Four(86_400)),
    (&LEASE, 5, Part::Eight(1061)),
    (&END, 6, Part::Two(99)),
];

/// The first of them inside which a front is not too short.
fn first_not_short_inside(alloc: Global) -> Result<Option<usize>, Fail> {
    for (number, row) in BAD.iter().enumerate() {
        let (parts, field, part) = *row;
        if field < parts.len() && !is_short_inside(alloc, &parts[..field], part)? {
            return Ok(Some(number));
        }
    }
    Ok(None)
}

#[test]
fn a_field_that_is_cut_breaks_no_other_rule(rt: HostRuntime) -> Result<(), Fail> {
    assert_eq!(rt; first_not_short_inside(rt.alloc())?, None);
    Ok(())
}

/// Whether one byte more is told at its place.
fn is_long_with(alloc: Global, parts: &[Part], byte: u8) -> Result<bool, Fail> {
    let mut payload = payload_of(alloc, parts)?;
    let at = payload.len();
    put(&mut payload, Part::One(byte))?;
    Ok(fault_of(alloc, payload.as_slice()) == Some(StepFault::Long { at }))
}

/// The first of some payloads with which it is not.
fn first_not_long(alloc: Global, samples: &[&[Part]]) -> Result<Option<usize>, Fail> {
    for (number, parts) in samples.iter().enumerate() {
        if !is_long_with(alloc, parts, 0)? || !is_long_with(alloc, parts, 255)? {
            return Ok(Some(number));
        }
    }
    Ok(None)
}

#[test]
fn one_byte_more_is_too_long(rt: HostRuntime) -> Result<(), Fail> {
    assert_eq!(rt; first_not_long(rt.alloc(), &CHANGES)?, None);
    assert_eq!(rt; first_not_long(rt.alloc(), &OTHERS)?, None);
    Ok(())
}
