//! The query of a request target, as a web form (WHATWG URL Standard).
ghost use Rattle.std.specs.Prelude.{◌≡◌, ◌++◌, [], ◌∷◌, IfOk, option_copied};
ghost use Rattle.request_fields.specs.Refusals.{Reads};
ghost use Rattle.request_calls.specs.Queries as spec;

use crate::route::{Route, is_known};
use request_fields::{BAD_REQUEST, DecodeFault, refused};
use sched_plain::{Items, Text};
use std::alloc::{AllocError, Global};

/// The number of the rule that a known name comes at most once.
const QUERY_RULE: u8 = 4;

/// A name of a query and its value, decoded.
#[derive(Debug, Drop)]
pub(crate) struct Pair {
    pub name: Text,
    pub value: Text,
}

/// The value of a name, where it is given.
pub(crate) fn value_of<'a>(name: &str, pairs: &'a [Pair]) -> Option<&'a str>
    ensures { option_copied result ≡ spec.value_of name.now pairs.entry.now }
{
    match pairs.iter().find(|pair| pair.name.as_str() == name) {
        Some(pair) => Some(pair.value.as_str()),
        None => None,
    }
}

/// What was found, with one more pair at its end.
fn added(
    alloc: Global,
    mut found: Items<Pair>,
    name: &str,
    value: &str,
) -> Result<Items<Pair>, AllocError>
    ensures { IfOk result (λ now. now ≡ found ++ (record { name = name.now; value = value.now }) ∷ []) }
{
    let pair = Pair {
        name: Text::from_string(String::from_str(alloc, name)?),
        value: Text::from_string(String::from_str(alloc, value)?),
    };
    found.push(pair)?;
    Ok(found)
}

/// What was found, with one more pair: an unknown name is passed over, a known one that was found before is refused.
fn with_pair(
    alloc: Global,
    route: Route,
    found: Items<Pair>,
    name: &str,
    value: &str,
) -> Result<Items<Pair>, DecodeFault>
    ensures { Reads result (spec.with_pair route found (record { name = name.now; value = value.now })) }
{
    if !is_known(route, name) {
        return Ok(found);
    }
    if value_of(name, found.as_slice()).is_some() {
        let refusal = refused(alloc, QUERY_RULE, BAD_REQUEST, "", name)?;
        return Err(DecodeFault::Refused(refusal));
    }
    let found = added(alloc, found, name, value)?;
    Ok(found)
}

/// The pairs of a query that its route knows.
pub(crate) fn read_query(
    alloc: Global,
    route: Route,
    query: &[u8],
) -> Result<Items<Pair>, DecodeFault>
    ensures { Reads result (spec.query_of route query.now) }
{
    let mut found = Items::new(alloc);
    for pair in form_urlencoded::parse(alloc, query) {
        let (name, value) = pair?;
        found = with_pair(alloc, route, found, name.as_str(), value.as_str())?;
    }
    Ok(found)
}
