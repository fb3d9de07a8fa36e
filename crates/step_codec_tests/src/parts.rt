//! Payloads field by field.
use std::alloc::{AllocError, Global};

/// A field as it is spelled.
#[derive(Debug, Clone, Copy)]
pub enum Part<'a> {
    /// A number in one byte, two, four or eight, the highest first.
    One(u8),
    Two(u16),
    Four(u32),
    Eight(u64),
    /// A text behind its length in one byte, two or four.
    S1(&'a str),
    S2(&'a str),
    S4(&'a str),
    /// A text of so many pieces behind its length in so many bytes.
    Pieces(usize, &'a str, usize),
    /// A moment that may be left out.
    Date(Option<u64>),
    /// Bytes as they stand.
    Raw(&'a [u8]),
}

/// The length of a text in so many bytes.
fn put_length(bytes: &mut Vec<u8>, width: usize, length: usize) -> Result<(), AllocError> {
    match width {
        1 => bytes.extend_from_slice(&[(length % 256) as u8]),
        2 => bytes.extend_from_slice(&((length % 65_536) as u16).to_be_bytes()),
        _ => bytes.extend_from_slice(&((length % 4_294_967_296) as u32).to_be_bytes()),
    }
}

fn put_pieces(
    bytes: &mut Vec<u8>,
    width: usize,
    piece: &str,
    times: usize,
) -> Result<(), AllocError> {
    put_length(bytes, width, piece.len().wrapping_mul(times))?;
    for _ in 0..times {
        bytes.extend_from_slice(piece.as_bytes())?;
    }
    Ok(())
}

fn put_date(bytes: &mut Vec<u8>, date: Option<u64>) -> Result<(), AllocError> {
    match date {
        None => bytes.extend_from_slice(&[0]),
        Some(moment) => {
            bytes.extend_from_slice(&[1])?;
            bytes.extend_from_slice(&moment.to_be_bytes())
        }
    }
}

/// Adds the bytes of a field.
pub fn put(bytes: &mut Vec<u8>, part: Part) -> Result<(), AllocError> {
    match part {
        Part::One(n) => bytes.extend_from_slice(&[n]),
        Part::Two(n) => bytes.extend_from_slice(&n.to_be_bytes()),
        Part::Four(n) => bytes.extend_from_slice(&n.to_be_bytes()),
        Part::Eight(n) => bytes.extend_from_slice(&n.to_be_bytes()),
        Part::S1(text) => put_pieces(bytes, 1, text, 1),
        Part::S2(text) => put_pieces(bytes, 2, text, 1),
        Part::S4(text) => put_pieces(bytes, 4, text, 1),
        Part::Pieces(width, piece, times) => put_pieces(bytes, width, piece, times),
        Part::Date(date) => put_date(bytes, date),
        Part::Raw(raw) => bytes.extend_from_slice(raw),
    }
}

/// The payload of these fields.
pub fn payload_of(alloc: Global, parts: &[Part]) -> Result<Vec<u8>, AllocError> {
    let mut bytes = Vec::new(alloc);
    for part in parts {
        put(&mut bytes, *part)?;
    }
    Ok(bytes)
}
