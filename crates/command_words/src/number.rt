//! Numbers as words give them.
ghost use Rattle.std.specs.Prelude.{◌≡◌, ◌≤◌, IsTrue, Some, None, if◌then◌else◌, nat_le, ◌&&◌};
ghost use Rattle.std.specs.List.{list_all};
ghost use Rattle.std.specs.Char.{is_ascii_digit};
ghost use Rattle.command_words.specs.Numbers.{begins_well, is_number, number_between};

fn are_digits(word: &[u8]) -> bool
    ensures { result ≡ list_all is_ascii_digit word.now }
{
    word.iter().all(|byte| byte.is_ascii_digit())
}

/// Whether a word has a first byte, which is no `0` unless it stands alone.
fn begins_well(word: &[u8]) -> bool
    ensures { result ≡ begins_well word.now }
{
    match word {
        [] => false,
        [_] => true,
        [first, ..] => *first != b'0',
    }
}

fn is_number(word: &[u8]) -> bool
    ensures { result ≡ is_number word.now }
{
    begins_well(word) && are_digits(word)
}

fn between(number: u64, least: u64, greatest: u64) -> Option<u64>
    ensures { result ≡ (if nat_le least number && nat_le number greatest then Some number else None) }
{
    if least <= number && number <= greatest {
        Some(number)
    } else {
        None
    }
}

/// The number that a word writes in decimal digits, without a sign or a leading zero, where it is within these limits.
pub fn number_between(word: &str, least: u64, greatest: u64) -> Option<u64>
    ensures { result ≡ number_between least greatest word.now }
{
    if !is_number(word.as_bytes()) {
        return None;
    }
    match word.parse::<u64>() {
        Ok(number) => between(number, least, greatest),
        Err(_) => None,
    }
}
