//! A line, word by word.

/// What stands before the first such text, and what stands behind it: nothing where it is not there.
pub(crate) fn cut<'a>(text: &'a str, at: &str) -> (&'a str, &'a str) {
    match text.split_once(at) {
        Some(parts) => parts,
        None => (text, ""),
    }
}

/// The number that a word writes in decimal digits.
pub(crate) fn number(word: &str) -> Option<u64> {
    match word.parse::<u64>() {
        Ok(number) => Some(number),
        Err(_) => None,
    }
}

/// What is left to be read of a line.
#[derive(Drop)]
pub(crate) struct Words<'a> {
    rest: &'a str,
}

impl<'a> Words<'a> {
    pub(crate) fn new(line: &'a str) -> Words<'a> {
        Words { rest: line }
    }

    /// All that is left.
    pub(crate) fn rest(&self) -> &'a str {
        self.rest
    }

    /// The next word, which ends at a space; empty behind the last one.
    pub(crate) fn next(&mut self) -> &'a str {
        let (word, rest) = cut(self.rest, " ");
        self.rest = rest;
        word
    }

    /// The next word's number.
    pub(crate) fn number(&mut self) -> Option<u64> {
        number(self.next())
    }

    /// The same, where it is so small.
    pub(crate) fn small(&mut self) -> Option<u8> {
        u8::try_from(self.number()?).ok()
    }

    pub(crate) fn short(&mut self) -> Option<u16> {
        u16::try_from(self.number()?).ok()
    }

    pub(crate) fn medium(&mut self) -> Option<u32> {
        u32::try_from(self.number()?).ok()
    }
}
