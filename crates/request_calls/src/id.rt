//! The id of an occurrence, as a path names it.
ghost use Rattle.std.specs.Prelude.{◌≡◌};
ghost use Rattle.plain_words.specs.Ids.{id_text};
ghost use Rattle.request_calls.specs.Ids.{execution_word};

use sched_plain::read_id;

/// The incarnation and the instant of an id: 8 and 16 lower-case hexadecimal digits. None where it is no id.
pub(crate) fn execution_word(text: &[u8]) -> Option<(u32, u64)>
    ensures { result ≡ execution_word text.now }
{
    match read_id(text) {
        Some((inc, instant)) => parts_of(text, inc, instant),
        None => None,
    }
}

/// The two numbers that an id shows.
fn parts_of(text: &[u8], inc: u32, instant: u64) -> Option<(u32, u64)>
    requires { text.now ≡ id_text inc instant }
    ensures { result ≡ execution_word text.now }
{
    Some((inc, instant))
}
