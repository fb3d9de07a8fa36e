//! The values of the headers of a head by their names, and the length of the body that they say.
ghost use Rattle.std.specs.Prelude.{◌≡◌, List, [], ◌∷◌, ◌++◌, ℕ, length, map, if◌then◌else◌, All, IfOk, OnOk};
ghost use Rattle.std.specs.Str.{str_eq_ignore_ascii_case};
ghost use Rattle.httparse.specs.Grammar.{RequestHead};
ghost use Rattle.httparse.specs.Spans.{header_bytes, IsHeaderWithin};
ghost use Rattle.http_wire.specs.Framing.{values_in, length_value, sized_by, length_of_fields};
ghost use Rattle.http_wire.specs.Heads.{BeginsWithHead, HoldsValues};

use crate::digits::number_within;
use crate::limits::{BODY_LIMIT, HEADER_LIMIT, LENGTH_DIGITS};
use httparse::Status;
use httparse::spans::{EMPTY_HEADER_SPAN, HeaderSpan, parse_request};
use plain_words::{Blob, Items};
use std::alloc::{AllocError, Global};

/// The values of a header that is to stand at most once.
#[derive(Clone, Copy, Debug)]
pub(super) enum Held<'a> {
    /// The header is not there.
    Absent,
    /// It is there once.
    Once(&'a [u8]),
    /// It is there again.
    Repeated,
}

/// Whether two header names are the same but for the case of letters.
fn same_name(a: &[u8], b: &[u8]) -> bool
    ensures { result ≡ str_eq_ignore_ascii_case a.now b.now }
{
    a.eq_ignore_ascii_case(b)
}

/// One more value, where the header's name is the same.
fn joined<'a>(found: Held<'a>, same: bool, value: &'a [u8]) -> Held<'a>
    ensures { (seen : List (List ℕ)) → HoldsValues found.entry seen
        → HoldsValues result (seen ++ (if same then value.entry.now ∷ [] else [])) }
{
    if !same {
        return found;
    }
    match found {
        Held::Absent => Held::Once(value),
        Held::Once(_) => Held::Repeated,
        Held::Repeated => Held::Repeated,
    }
}

/// The values of the headers of this name.
fn value_of<'a>(head: &'a [u8], headers: &[HeaderSpan], name: &[u8]) -> Held<'a>
    requires { All (IsHeaderWithin (length head.now)) headers.now }
    ensures { HoldsValues result (values_in name.now (map (header_bytes head.entry.now) headers.now)) }
{
    let mut found = Held::Absent;
    for header in headers {
        let same = same_name(header.name.of(head), name);
        found = joined(found, same, header.value.of(head));
    }
    found
}

/// The length that 1 to 6 digits write, where a body may be as long.
fn length_from(digits: &[u8]) -> Option<u64>
    ensures { result ≡ length_value digits.now }
{
    number_within(digits, LENGTH_DIGITS, BODY_LIMIT)
}

/// The length of the body, from the values of Transfer-Encoding and of Content-Length.
fn sized(codings: Held, lengths: Held) -> Option<u64>
    ensures { (vs ws : List (List ℕ)) → HoldsValues codings.entry vs → HoldsValues lengths.entry ws
        → result ≡ sized_by vs ws }
{
    match (codings, lengths) {
        (Held::Absent, Held::Absent) => Some(0),
        (Held::Absent, Held::Once(digits)) => length_from(digits),
        _ => None,
    }
}

/// The length of the body that a head says, or none where it says none that is allowed.
pub(super) fn length_of(head: &[u8]) -> Option<u64>
    ensures { (h : RequestHead) (rest : List ℕ) → BeginsWithHead head.now h rest
        → result ≡ length_of_fields h.fields }
{
    let mut headers = [EMPTY_HEADER_SPAN; HEADER_LIMIT];
    match parse_request(head, &mut headers) {
        Ok(Status::Complete(found)) => {
            let headers = &headers[..found.headers];
            sized(
                value_of(head, headers, b"transfer-encoding"),
                value_of(head, headers, b"content-length"),
            )
        }
        _ => None,
    }
}

/// Adds one more value, where the header's name is the same.
fn add_if(
    values: &mut Items<Blob>,
    alloc: Global,
    same: bool,
    value: &[u8],
) -> Result<(), AllocError>
    ensures { OnOk result (values.new ≡ values.old ++ (if same then value.now ∷ [] else [])) }
{
    if same {
        values.push(Blob::from_vec(value.to_vec(alloc)?))?;
    }
    Ok(())
}

/// The values of the headers of this name, in their order.
pub(super) fn values_of(
    alloc: Global,
    head: &[u8],
    headers: &[HeaderSpan],
    name: &[u8],
) -> Result<Items<Blob>, AllocError>
    requires { All (IsHeaderWithin (length head.now)) headers.now }
    ensures { IfOk result (λ values. values ≡ values_in name.now (map (header_bytes head.now) headers.now)) }
{
    let mut values = Items::new(alloc);
    for header in headers {
        let same = same_name(header.name.of(head), name);
        add_if(&mut values, alloc, same, header.value.of(head))?;
    }
    Ok(values)
}
