//! Numbers that are written in decimal digits, as the values of headers give them.
ghost use Rattle.std.specs.Prelude.{◌≡◌, ◌+◌, ◌<◌, ◌≤◌, length, Some, None, if◌then◌else◌};
ghost use Rattle.std.specs.List.{list_all};
ghost use Rattle.std.specs.Char.{is_ascii_digit};
ghost use Rattle.std.specs.Str.Parse.{digits_value};
ghost use Rattle.http_wire.specs.Digits.{number_within};

/// The most digits of a number that is read. Each number of so many digits is below 2^64.
pub const MOST_DIGITS: usize = 19;

/// The number that these digits write, at most so many, or none where a byte is no digit. No digits write 0.
fn number_from(digits: &[u8]) -> Option<u64>
    requires { length digits.now ≤ MOST_DIGITS }
    ensures { result
        ≡ (if list_all is_ascii_digit digits.now then Some (digits_value 10 digits.now) else None) }
{
    let mut number = 0;
    for byte in digits {
        if !byte.is_ascii_digit() {
            return None;
        }
        number = number * 10 + (*byte - b'0') as u64;
    }
    Some(number)
}

/// The number that 1 to `most` digits write, where it is at most `limit`. None where they write no such number.
pub fn number_within(digits: &[u8], most: usize, limit: u64) -> Option<u64>
    requires { most ≤ MOST_DIGITS }
    ensures { result ≡ number_within most limit digits.now }
{
    if digits.is_empty() || digits.len() > most {
        return None;
    }
    let number = number_from(digits)?;
    if number > limit { None } else { Some(number) }
}
