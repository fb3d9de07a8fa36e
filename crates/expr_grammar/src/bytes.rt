//! Decimal digits, and texts that are the same.
ghost use Rattle.std.specs.Prelude.{◌≡◌, ◌^◌, ◌<◌, ◌≤◌, true, length};
ghost use Rattle.std.specs.List.{list_all};
ghost use Rattle.expressions.specs.Pieces.{is_digit, is_number, number_of, same};

pub(crate) fn is_digit(byte: u8) -> bool
    ensures { result ≡ is_digit byte }
{
    byte.is_ascii_digit()
}

fn all_digits(text: &[u8]) -> bool
    ensures { result ≡ list_all is_digit text.now }
{
    text.iter().all(|byte| is_digit(*byte))
}

/// Whether the text is decimal digits, at least and at most so many.
pub(crate) fn is_number(text: &[u8], least: usize, most: usize) -> bool
    ensures { result ≡ is_number least most text.now }
{
    if !all_digits(text) || text.len() < least {
        return false;
    }
    text.len() <= most
}

/// The number that decimal digits stand for.
pub(crate) fn number(digits: &[u8]) -> u32
    requires few { length digits.now ≤ 6 }
    requires digits { list_all is_digit digits.now ≡ true }
    ensures value { result ≡ number_of digits.now }
    ensures bound { result < 10 ^ length digits.now }
{
    let mut number: u32 = 0;
    for byte in digits {
        number = number * 10 + u32::from(*byte - b'0');
    }
    number
}

/// Whether a text is another.
pub(crate) fn is_text(text: &[u8], other: &[u8]) -> bool
    ensures { result ≡ same text.now other.now }
{
    text == other
}
