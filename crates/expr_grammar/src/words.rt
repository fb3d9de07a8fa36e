//! The words of a text, one or more spaces apart.
ghost use Rattle.std.specs.Prelude.{◌≡◌, ◌+◌, ◌^◌, ◌<◌, ◌≤◌, ◌==◌, ◌∷◌, [], not, length, position, IfSome, MatchOption};
ghost use Rattle.std.specs.List.{position_or_len};
ghost use Rattle.plain_words.specs.Bytes.{space};
ghost use Rattle.expr_grammar.specs.WordsLeft.{left, piece_of};

/// A word or an item of a text, and the place of its first byte.
#[derive(Clone, Copy)]
pub(crate) struct Piece<'a> {
    pub(crate) text: &'a [u8],
    pub(crate) at: usize,
}

/// The words of a text that are left, one or more spaces apart.
#[derive(Clone, Copy)]
pub(crate) struct Words<'a> {
    pub(crate) rest: &'a [u8],
    /// The place of the first byte that is left.
    pub(crate) at: usize,
}

/// The next word and the words behind it.
pub(crate) fn next_word<'a>(words: Words<'a>) -> Option<(Piece<'a>, Words<'a>)>
    requires { words.at + length words.rest.now < 2 ^ 64 }
    ensures words { MatchOption result (left words.entry ≡ []) (λ next. left words.entry ≡ piece_of next.0 ∷ left next.1) }
    ensures room { IfSome result (λ next. next.1.at + length next.1.rest.now < 2 ^ 64) }
    ensures within { IfSome result (λ next. next.0.at + length next.0.text.now < 2 ^ 64) }
{
    let spaces = space_count(words.rest);
    let (_, front) = words.rest.split_at(spaces);
    let length = word_length(front);
    if length == 0 {
        return None;
    }
    let at = words.at + spaces;
    let (text, rest) = front.split_at(length);
    let left = Words {
        rest,
        at: at + length,
    };
    Some((Piece { text, at }, left))
}

/// How many spaces are in front.
#[tactic(auto, using(crate::proofs::Cuts::place_or_length, crate::proofs::Cuts::place_within))]
fn space_count(text: &[u8]) -> usize
    ensures value { result ≡ position_or_len (λ b. not (b == space)) text.now }
    ensures bound { result ≤ length text.now }
{
    first_other(text).unwrap_or(text.len())
}

fn first_other(text: &[u8]) -> Option<usize>
    ensures { result ≡ position (λ b. not (b == space)) text.now }
{
    text.iter().position(|byte| *byte != b' ')
}

/// How many bytes stand before the first space.
#[tactic(auto, using(crate::proofs::Cuts::place_or_length, crate::proofs::Cuts::place_within))]
fn word_length(text: &[u8]) -> usize
    ensures value { result ≡ position_or_len (λ b. b == space) text.now }
    ensures bound { result ≤ length text.now }
{
    first_space(text).unwrap_or(text.len())
}

fn first_space(text: &[u8]) -> Option<usize>
    ensures { result ≡ position (λ b. b == space) text.now }
{
    text.iter().position(|byte| *byte == b' ')
}
