//! Writes, in words. They are read as the requests of the service are.
ghost use Rattle.std.specs.Prelude.{IfOk, IfSome};
ghost use Rattle.sched_plain.specs.Validity.{IsWrite};

use crate::bodies::{schedule_body, settings_of};
use crate::words::cut;
use http_wire::HttpRequest;
use plain_words::{Blob, Items};
use request_calls::{DecodeFault, decode};
use sched_calls::Call;
use sched_plain::Write;
use std::alloc::{AllocError, Global};

/// A request with these parts.
pub(crate) fn request_of(
    alloc: Global,
    method: &str,
    target: &str,
    body: &str,
) -> Result<HttpRequest, AllocError> {
    Ok(HttpRequest {
        method: Blob::from_vec(method.as_bytes().to_vec(alloc)?),
        target: Blob::from_vec(target.as_bytes().to_vec(alloc)?),
        moments: Items::new(alloc),
        body: Blob::from_vec(body.as_bytes().to_vec(alloc)?),
    })
}

/// The write that a request asks for. None where it asks for none.
fn asked(alloc: Global, method: &str, target: &str, body: &str) -> Result<Option<Write>, AllocError>
    ensures { IfOk result (λ write. IfSome write IsWrite) }
{
    let request = request_of(alloc, method, target, body)?;
    match decode(alloc, &request, false) {
        Ok(Call::Write(write)) => Ok(Some(write)),
        Err(DecodeFault::OutOfMemory) => Err(AllocError),
        _ => Ok(None),
    }
}

/// What puts a schedule: `NAME; EXPRESSION; SETTING; ..`.
fn put(alloc: Global, method: &str, text: &str) -> Result<Option<Write>, AllocError>
    ensures { IfOk result (λ write. IfSome write IsWrite) }
{
    let (name, text) = cut(text, "; ");
    let Some(settings) = settings_of(text) else {
        return Ok(None);
    };
    let target = format!(in alloc; "/schedules/{name}")?;
    let body = schedule_body(alloc, &settings)?;
    asked(alloc, method, target.as_str(), body.as_str())
}

/// The deletion of a schedule: `NAME GROUP TOKEN`, where the last ones may be left out.
fn deletion(alloc: Global, text: &str) -> Result<Option<Write>, AllocError>
    ensures { IfOk result (λ write. IfSome write IsWrite) }
{
    let (name, rest) = cut(text, " ");
    let (group, token) = cut(rest, " ");
    let group = if group.is_empty() { "default" } else { group };
    let target = if token.is_empty() {
        format!(in alloc; "/schedules/{name}?groupName={group}")?
    } else {
        format!(in alloc; "/schedules/{name}?groupName={group}&clientToken={token}")?
    };
    asked(alloc, "DELETE", target.as_str(), "")
}

fn group_creation(alloc: Global, text: &str) -> Result<Option<Write>, AllocError>
    ensures { IfOk result (λ write. IfSome write IsWrite) }
{
    let (name, token) = cut(text, " ");
    let target = format!(in alloc; "/schedule-groups/{name}")?;
    if token.is_empty() {
        return asked(alloc, "POST", target.as_str(), "{}");
    }
    let body = format!(in alloc; "{{\"ClientToken\":\"{token}\"}}")?;
    asked(alloc, "POST", target.as_str(), body.as_str())
}

fn group_deletion(alloc: Global, text: &str) -> Result<Option<Write>, AllocError>
    ensures { IfOk result (λ write. IfSome write IsWrite) }
{
    let (name, token) = cut(text, " ");
    if token.is_empty() {
        let target = format!(in alloc; "/schedule-groups/{name}")?;
        return asked(alloc, "DELETE", target.as_str(), "");
    }
    let target = format!(in alloc; "/schedule-groups/{name}?clientToken={token}")?;
    asked(alloc, "DELETE", target.as_str(), "")
}

/// The write that a verb and the words behind it say. None where they say none.
pub(crate) fn write_of(alloc: Global, verb: &str, text: &str) -> Result<Option<Write>, AllocError>
    ensures { IfOk result (λ write. IfSome write IsWrite) }
{
    match verb {
        "create" => put(alloc, "POST", text),
        "update" => put(alloc, "PUT", text),
        "delete" => deletion(alloc, text),
        "group" => group_creation(alloc, text),
        "ungroup" => group_deletion(alloc, text),
        _ => Ok(None),
    }
}
