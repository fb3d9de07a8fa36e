/// The sixteen bytes that a journal begins with: its name, the version, and seven zeros.
pub const HEADER: [u8; 16] = [
    0x53, 0x43, 0x48, 0x45, 0x44, 0x4a, 0x4e, 0x4c, 1, 0, 0, 0, 0, 0, 0, 0,
];
/// A gate with a record behind it.
pub const OPEN: u8 = 1;
/// A gate with nothing behind it, as it is written; any byte but `OPEN` is closed.
pub const CLOSED: u8 = 0;
/// The most bytes of a record's payload.
pub const LONGEST_PAYLOAD: usize = 131_072;
