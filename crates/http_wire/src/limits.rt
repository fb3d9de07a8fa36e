//! The limits of a request.

/// The most bytes of a head, with the empty lines before it.
pub const HEAD_LIMIT: usize = 16_384;

/// The most headers of a head.
pub const HEADER_LIMIT: usize = 64;

/// The most bytes of a body.
pub const BODY_LIMIT: u64 = 262_144;

/// The most digits of Content-Length.
pub const LENGTH_DIGITS: usize = 6;
