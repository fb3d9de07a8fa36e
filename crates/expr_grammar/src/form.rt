//! What stands between an opening and the closing bracket.
ghost use Rattle.std.specs.Prelude.{◌≡◌, ◌+◌, ◌<◌, true, false, codes, length, nat_eq, IfSome};
ghost use Rattle.std.specs.List.{ends_with};
ghost use Rattle.std.specs.Option.{option_copied};
ghost use Rattle.expressions.specs.Pieces.{has_bare_ends, inside};
ghost use Rattle.expr_grammar.specs.Answers.{enclosed};

/// What stands between an opening, as `rate(`, and the closing bracket at the text's end.
pub(crate) fn inside<'a>(opening: &[u8], text: &'a [u8]) -> Option<&'a [u8]>
    requires { ends_with nat_eq opening.now (codes ")") ≡ false }
    ensures value { option_copied result ≡ inside opening.now text.entry.now }
    ensures whole { IfSome result (λ inner. text.entry.now ≡ enclosed opening.now inner.now) }
    ensures shorter { IfSome result (λ inner. length opening.now + length inner.now < length text.entry.now) }
{
    if !text.starts_with(opening) || !text.ends_with(b")") {
        return None;
    }
    let (_, rest) = text.split_at(opening.len());
    let (inner, _) = rest.split_at(rest.len() - 1);
    Some(inner)
}

/// Whether no space is first or last.
pub(crate) fn has_bare_ends(text: &[u8]) -> bool
    ensures { result ≡ has_bare_ends text.now }
{
    if text.is_empty() || text[0] == b' ' {
        return text.is_empty();
    }
    text[text.len() - 1] != b' '
}
