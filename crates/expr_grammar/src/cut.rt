//! Cuts a text at a byte.
ghost use Rattle.std.specs.Prelude.{◌≡◌, ◌+◌, ◌==◌, ◌∷◌, [], length, position, ◌<◌, IfSome, MatchOption};
ghost use Rattle.expressions.specs.Pieces.{cut};
ghost use Rattle.expr_grammar.specs.Parts.{ArePartsOf};

/// The parts of a text between the bytes at which it is cut, as far as two.
#[derive(Clone, Copy)]
pub(crate) enum Parts<'a> {
    One,
    Two(&'a [u8], &'a [u8]),
    More,
}

/// Cuts a text at a byte, into two parts at most.
pub(crate) fn cut_in_two<'a>(separator: u8, text: &'a [u8]) -> Parts<'a>
    ensures { ArePartsOf separator text.entry.now result }
{
    match split_once(separator, text) {
        None => Parts::One,
        Some((front, rest)) => match split_once(separator, rest) {
            None => Parts::Two(front, rest),
            Some(_) => Parts::More,
        },
    }
}

/// What stands before and behind the first such byte.
pub(crate) fn split_once<'a>(separator: u8, text: &'a [u8]) -> Option<(&'a [u8], &'a [u8])>
    ensures cut { MatchOption result (cut separator text.entry.now ≡ text.entry.now ∷ [])
        (λ p. cut separator text.entry.now ≡ p.0.now ∷ cut separator p.1.now) }
    ensures long { IfSome result (λ p. length p.0.now + 1 + length p.1.now ≡ length text.entry.now) }
{
    match place_of(separator, text) {
        None => None,
        Some(at) => {
            let (front, back) = text.split_at(at);
            let (_, rest) = back.split_at(1);
            Some((front, rest))
        }
    }
}

fn place_of(separator: u8, text: &[u8]) -> Option<usize>
    ensures value { result ≡ position (λ b. b == separator) text.now }
    ensures within { IfSome result (λ at. at < length text.now) }
{
    text.iter().position(|byte| *byte == separator)
}
