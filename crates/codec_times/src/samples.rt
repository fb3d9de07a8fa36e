//! Payloads to read and write over and over.
use std::alloc::{AllocError, Global};

/// How many bytes of input the usual Change has.
const USUAL_INPUT: usize = 1_000;

/// As many bytes as an input may have.
const LONGEST_INPUT: usize = 65_536;

/// The payload of a case, if it is one.
pub fn payload_of(alloc: Global, case: &str) -> Result<Option<Vec<u8>>, AllocError> {
    match case {
        "begin" => Ok(Some(begin(alloc)?)),
        "enter" => Ok(Some(enter(alloc)?)),
        "change" => Ok(Some(change(alloc, USUAL_INPUT)?)),
        "largest" => Ok(Some(change(alloc, LONGEST_INPUT)?)),
        _ => Ok(None),
    }
}

/// The first attempt of an occurrence.
fn begin(alloc: Global) -> Result<Vec<u8>, AllocError> {
    let mut bytes = vec![in alloc; 7_u8]?;
    bytes.extend_from_slice(&1000_u64.to_be_bytes())?;
    bytes.extend_from_slice(&1_u32.to_be_bytes())?;
    bytes.extend_from_slice(&1000_u64.to_be_bytes())?;
    bytes.extend_from_slice(&1_u16.to_be_bytes())?;
    bytes.extend_from_slice(&1_u64.to_be_bytes())?;
    Ok(bytes)
}

/// An Enter of 256 pairs.
fn enter(alloc: Global) -> Result<Vec<u8>, AllocError> {
    let mut bytes = vec![in alloc; 4_u8]?;
    bytes.extend_from_slice(&1000_u64.to_be_bytes())?;
    bytes.extend_from_slice(&1_u32.to_be_bytes())?;
    bytes.extend_from_slice(&256_u16.to_be_bytes())?;
    for k in 0..256_u64 {
        bytes.extend_from_slice(&k.to_be_bytes())?;
        bytes.extend_from_slice(&60_u32.to_be_bytes())?;
    }
    Ok(bytes)
}

/// A creation whose input has so many bytes.
fn change(alloc: Global, input: usize) -> Result<Vec<u8>, AllocError> {
    let mut bytes = vec![in alloc; 3_u8]?;
    bytes.extend_from_slice(&1000_u64.to_be_bytes())?;
    bytes.push(1)?;
    short_text(&mut bytes, b"token-0001")?;
    short_text(&mut bytes, b"default")?;
    short_text(&mut bytes, b"report")?;
    text(&mut bytes, b"once an hour, for the report")?;
    text(&mut bytes, b"cron(0 9 ? * MON-FRI *)")?;
    short_text(&mut bytes, b"America/New_York")?;
    bytes.extend_from_slice(&[0, 0, 1, 0, 0, 10, 185])?;
    bytes.extend_from_slice(&86_400_u32.to_be_bytes())?;
    text(&mut bytes, b"http://127.0.0.1:9000/hook")?;
    text(&mut bytes, b"arn:aws:iam::000000000000:role/r")?;
    text(&mut bytes, b"arn:aws:sqs:local:000000000000:letters")?;
    bytes.extend_from_slice(&((input % 4_294_967_296) as u32).to_be_bytes())?;
    for _ in 0..input {
        bytes.push(b'x')?;
    }
    Ok(bytes)
}

fn short_text(bytes: &mut Vec<u8>, text: &[u8]) -> Result<(), AllocError> {
    bytes.push((text.len() % 256) as u8)?;
    bytes.extend_from_slice(text)
}

fn text(bytes: &mut Vec<u8>, text: &[u8]) -> Result<(), AllocError> {
    bytes.extend_from_slice(&((text.len() % 65_536) as u16).to_be_bytes())?;
    bytes.extend_from_slice(text)
}
