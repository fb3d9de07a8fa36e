//! The call that a request asks for.
ghost use Rattle.std.specs.Prelude.{◌≡◌, List, take, IfOk};
ghost use Rattle.std.specs.String.{string_bytes};
ghost use Rattle.serde_json.specs.View.{view};
ghost use Rattle.request_fields.specs.Refusals.{Reads};
ghost use Rattle.request_calls.specs.Calls as spec;
ghost use Rattle.request_calls.specs.declared.route.Route.TheVariants.{CreateSchedule, UpdateSchedule, CreateGroup};
ghost use Rattle.request_calls.specs.Validity.{IsSoundCall, IsSoundPut};
ghost use Rattle.request_calls.specs.declared.query.Pair.{Pair};

use crate::put::{Put, group_body, path_name, read_put, read_token, schedule_body};
use crate::query::{Pair, read_query};
use crate::reads::{
    execution_read, group_deletion, group_list, group_read, letter_list, schedule_deletion,
    schedule_list, schedule_read,
};
use crate::route::{Route, path_in, query_in, route_of, segment_of};
use http_wire::HttpRequest;
use request_fields::{DecodeFault, refused};
use sched_calls::Call;
use sched_plain::Write;
use serde_json::Value;
use std::alloc::{AllocError, Global};

/// How many bytes of a path a message shows.
const SHOWN_PATH: usize = 64;
/// The number of the rule that a request has a route.
const ROUTE_RULE: u8 = 3;
/// The status where there is no route.
const NOT_FOUND: u16 = 404;

/// The call that a request asks for. Where `sweeps` is false there is no route to a sweep.
///
/// Fails at the first rule that the request breaks: it has a route; a name that its query knows comes once; its body is a
/// JSON object (RFC 8259); each member is known; each field keeps its rule. Want of memory may come at any place.
pub fn decode(alloc: Global, request: &HttpRequest, sweeps: bool) -> Result<Call, DecodeFault>
    ensures value { Reads result (spec.call_of request.now sweeps) }
    // A write is valid, and its target is an address.
    ensures sound { IfOk result IsSoundCall }
{
    let target = request.target.as_bytes();
    call_with(
        alloc,
        sweeps,
        request.method.as_bytes(),
        path_in(target),
        query_in(target),
        request.body.as_bytes(),
    )
}

/// The call of these parts of a request.
fn call_with(
    alloc: Global,
    sweeps: bool,
    method: &[u8],
    path: &[u8],
    query: &[u8],
    body: &[u8],
) -> Result<Call, DecodeFault>
    ensures value { Reads result (spec.call_with sweeps method.now path.now query.now body.now) }
    ensures sound { IfOk result IsSoundCall }
{
    let route = read_route(alloc, sweeps, method, path)?;
    let asked = read_query(alloc, route, query)?;
    call_at(
        alloc,
        route,
        segment_of(route, path),
        asked.as_slice(),
        body,
    )
}

/// The route of a method and a path.
fn read_route(alloc: Global, sweeps: bool, method: &[u8], path: &[u8]) -> Result<Route, DecodeFault>
    ensures { Reads result (spec.read_route sweeps method.now path.now) }
{
    match route_of(sweeps, method, path) {
        Some(route) => Ok(route),
        None => {
            let shown = shown_path(alloc, path)?;
            let refusal = refused(alloc, ROUTE_RULE, NOT_FOUND, "", shown.as_str())?;
            Err(DecodeFault::Refused(refusal))
        }
    }
}

/// A path, as a message shows it: its first bytes.
fn shown_path(alloc: Global, path: &[u8]) -> Result<String, AllocError>
    ensures { IfOk result (λ text. string_bytes text ≡ spec.shown_path path.now) }
{
    String::from_utf8_lossy(alloc, front_of(path))
}

/// The first bytes of a path.
fn front_of(path: &[u8]) -> &[u8]
    ensures { result.now ≡ take SHOWN_PATH path.entry.now }
{
    if path.len() <= SHOWN_PATH {
        return path;
    }
    let (front, _) = path.split_at(SHOWN_PATH);
    front
}

/// The call of a route, given the segment that its path names, the query and the body.
fn call_at(
    alloc: Global,
    route: Route,
    segment: &[u8],
    asked: &[Pair],
    body: &[u8],
) -> Result<Call, DecodeFault>
    ensures value { Reads result (spec.call_at route segment.now asked.now body.now) }
    ensures sound { IfOk result IsSoundCall }
{
    match route {
        Route::CreateSchedule => creation(alloc, segment, body),
        Route::UpdateSchedule => update(alloc, segment, body),
        Route::GetSchedule => schedule_read(alloc, segment, asked),
        Route::DeleteSchedule => schedule_deletion(alloc, segment, asked),
        Route::ListSchedules => schedule_list(alloc, asked),
        Route::CreateGroup => group_creation(alloc, segment, body),
        Route::GetGroup => group_read(alloc, segment),
        Route::DeleteGroup => group_deletion(alloc, segment, asked),
        Route::ListGroups => group_list(alloc, asked),
        Route::GetExecution => execution_read(alloc, segment),
        Route::ListLetters => letter_list(alloc, asked),
        Route::Sweep => Ok(Call::Sweep),
    }
}

/// The creation of a schedule.
fn creation(alloc: Global, segment: &[u8], body: &[u8]) -> Result<Call, DecodeFault>
    ensures value { (asked : List Pair) → Reads result (spec.call_at CreateSchedule segment.now asked body.now) }
    ensures sound { IfOk result IsSoundCall }
{
    let object = schedule_body(alloc, body)?;
    let put = read_put(alloc, segment, &object)?;
    Ok(creation_of(put))
}

fn creation_of(put: Put) -> Call
    requires { IsSoundPut put }
    ensures value { result ≡ spec.creation_of put }
    ensures sound { IsSoundCall result }
{
    let Put {
        group,
        name,
        token,
        content,
    } = put;
    Call::Write(Write::CreateSchedule {
        group,
        name,
        token,
        content,
    })
}

/// The update of a schedule.
fn update(alloc: Global, segment: &[u8], body: &[u8]) -> Result<Call, DecodeFault>
    ensures value { (asked : List Pair) → Reads result (spec.call_at UpdateSchedule segment.now asked body.now) }
    ensures sound { IfOk result IsSoundCall }
{
    let object = schedule_body(alloc, body)?;
    let put = read_put(alloc, segment, &object)?;
    Ok(update_of(put))
}

fn update_of(put: Put) -> Call
    requires { IsSoundPut put }
    ensures value { result ≡ spec.update_of put }
    ensures sound { IsSoundCall result }
{
    let Put {
        group,
        name,
        token,
        content,
    } = put;
    Call::Write(Write::UpdateSchedule {
        group,
        name,
        token,
        content,
    })
}

/// The creation of a group.
fn group_creation(alloc: Global, segment: &[u8], body: &[u8]) -> Result<Call, DecodeFault>
    ensures value { (asked : List Pair) → Reads result (spec.call_at CreateGroup segment.now asked body.now) }
    ensures sound { IfOk result IsSoundCall }
{
    let object = group_body(alloc, body)?;
    read_group_creation(alloc, segment, &object)
}

fn read_group_creation(alloc: Global, segment: &[u8], body: &Value) -> Result<Call, DecodeFault>
    ensures value { Reads result (spec.group_creation segment.now (view body.now)) }
    ensures sound { IfOk result IsSoundCall }
{
    let name = path_name(alloc, segment)?;
    let token = read_token(alloc, body)?;
    Ok(Call::Write(Write::CreateGroup { name, token }))
}
