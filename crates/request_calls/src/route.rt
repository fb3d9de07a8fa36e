//! The routes: which call a method and a path ask for.
ghost use Rattle.std.specs.Prelude.{◌≡◌, ◌==◌, Bool, codes};
ghost use Rattle.std.specs.List.{list_any};
ghost use Rattle.std.specs.Str.{bytes_eq};
ghost use Rattle.plain_words.specs.Lists.{when};
ghost use Rattle.plain_words.specs.Bytes.{slash};
ghost use Rattle.request_fields.specs.Members.{is_among};
ghost use Rattle.request_calls.specs.Routes as spec;
ghost use Rattle.request_calls.specs.declared.route.Place.TheVariants.{Schedule, Group, Sweep};
ghost use Rattle.request_calls.specs.declared.route.Route.TheVariants.{ListSchedules, ListGroups, ListLetters};

use request_fields::{around, behind};

/// What a path names.
#[derive(Debug, Clone, Copy, PartialEq, Eq)]
pub(crate) enum Place {
    /// The list of schedules.
    Schedules,
    /// One schedule.
    Schedule,
    /// The list of groups.
    Groups,
    /// One group.
    Group,
    /// One occurrence.
    Execution,
    /// The dead letters.
    Letters,
    /// The sweep of all shards.
    Sweep,
}

/// What a method asks for at a place.
#[derive(Debug, Clone, Copy, PartialEq, Eq)]
pub(crate) enum Route {
    CreateSchedule,
    UpdateSchedule,
    GetSchedule,
    DeleteSchedule,
    ListSchedules,
    CreateGroup,
    GetGroup,
    DeleteGroup,
    ListGroups,
    GetExecution,
    ListLetters,
    Sweep,
}

fn has_slash(text: &[u8]) -> bool
    ensures { result ≡ list_any (λ byte. byte == slash) text.now }
{
    text.iter().any(|byte| *byte == b'/')
}

/// Whether it is one segment of a path, which is not empty.
fn is_segment(text: &[u8]) -> bool
    ensures { result ≡ spec.is_segment text.now }
{
    1 <= text.len() && !has_slash(text)
}

/// Whether a path is a front and one segment.
fn is_under(front: &[u8], path: &[u8]) -> bool
    ensures { result ≡ spec.is_under front.now path.now }
{
    match behind(front, path) {
        Some(segment) => is_segment(segment),
        None => false,
    }
}

/// What a path names.
fn place_of(path: &[u8]) -> Option<Place>
    ensures { result ≡ spec.place_of path.now }
{
    if path == b"/schedules".as_slice() {
        Some(Place::Schedules)
    } else if is_under(b"/schedules/", path) {
        Some(Place::Schedule)
    } else if path == b"/schedule-groups".as_slice() {
        Some(Place::Groups)
    } else if is_under(b"/schedule-groups/", path) {
        Some(Place::Group)
    } else if is_under(b"/executions/", path) {
        Some(Place::Execution)
    } else if path == b"/dead-letters".as_slice() {
        Some(Place::Letters)
    } else if path == b"/sweep".as_slice() {
        Some(Place::Sweep)
    } else {
        None
    }
}

/// What a method asks for at one schedule.
fn at_schedule(method: &[u8]) -> Option<Route>
    ensures { (sweeps : Bool) → result ≡ spec.route_at sweeps method.now Schedule }
{
    if method == b"POST".as_slice() {
        Some(Route::CreateSchedule)
    } else if method == b"PUT".as_slice() {
        Some(Route::UpdateSchedule)
    } else if method == b"GET".as_slice() {
        Some(Route::GetSchedule)
    } else if method == b"DELETE".as_slice() {
        Some(Route::DeleteSchedule)
    } else {
        None
    }
}

/// What a method asks for at one group.
fn at_group(method: &[u8]) -> Option<Route>
    ensures { (sweeps : Bool) → result ≡ spec.route_at sweeps method.now Group }
{
    if method == b"POST".as_slice() {
        Some(Route::CreateGroup)
    } else if method == b"GET".as_slice() {
        Some(Route::GetGroup)
    } else if method == b"DELETE".as_slice() {
        Some(Route::DeleteGroup)
    } else {
        None
    }
}

/// The route, where the method is GET.
fn on_get(method: &[u8], route: Route) -> Option<Route>
    ensures { result ≡ when (bytes_eq method.now (codes "GET")) route }
{
    if method == b"GET".as_slice() {
        Some(route)
    } else {
        None
    }
}

/// The sweep, where it is served and the method is POST.
fn at_sweep(sweeps: bool, method: &[u8]) -> Option<Route>
    ensures { result ≡ spec.route_at sweeps method.now Sweep }
{
    if sweeps && method == b"POST".as_slice() {
        Some(Route::Sweep)
    } else {
        None
    }
}

/// What a method asks for at a place.
fn route_at(sweeps: bool, method: &[u8], place: Place) -> Option<Route>
    ensures { result ≡ spec.route_at sweeps method.now place }
{
    match place {
        Place::Schedules => on_get(method, Route::ListSchedules),
        Place::Schedule => at_schedule(method),
        Place::Groups => on_get(method, Route::ListGroups),
        Place::Group => at_group(method),
        Place::Execution => on_get(method, Route::GetExecution),
        Place::Letters => on_get(method, Route::ListLetters),
        Place::Sweep => at_sweep(sweeps, method),
    }
}

/// The route of a method and a path, where there is one. Where `sweeps` is false there is none for a sweep.
pub(crate) fn route_of(sweeps: bool, method: &[u8], path: &[u8]) -> Option<Route>
    ensures { result ≡ spec.route_of sweeps method.now path.now }
{
    match place_of(path) {
        Some(place) => route_at(sweeps, method, place),
        None => None,
    }
}

/// The front of the paths at which a route stands, for those behind which a segment is named.
fn front_of(route: Route) -> &'static [u8]
    ensures { result.now ≡ spec.front_of route }
{
    match route {
        Route::CreateSchedule
        | Route::UpdateSchedule
        | Route::GetSchedule
        | Route::DeleteSchedule => b"/schedules/",
        Route::CreateGroup | Route::GetGroup | Route::DeleteGroup => b"/schedule-groups/",
        Route::GetExecution => b"/executions/",
        Route::ListSchedules | Route::ListGroups | Route::ListLetters | Route::Sweep => b"",
    }
}

/// The segment behind it.
pub(crate) fn segment_of(route: Route, path: &[u8]) -> &[u8]
    ensures { result.now ≡ spec.segment_of route path.entry.now }
{
    match behind(front_of(route), path) {
        Some(segment) => segment,
        None => &[],
    }
}

/// Whether a route's query knows a name.
pub(crate) fn is_known(route: Route, name: &str) -> bool
    ensures { result ≡ is_among name.now (spec.names_of route) }
{
    match route {
        Route::GetSchedule => name == "groupName",
        Route::DeleteSchedule => name == "groupName" || name == "clientToken",
        Route::ListSchedules => is_known_of_schedules(name),
        Route::DeleteGroup => name == "clientToken",
        Route::ListGroups => is_known_of_groups(name),
        Route::ListLetters => is_known_of_letters(name),
        Route::CreateSchedule
        | Route::UpdateSchedule
        | Route::CreateGroup
        | Route::GetGroup
        | Route::GetExecution
        | Route::Sweep => false,
    }
}

fn is_known_of_schedules(name: &str) -> bool
    ensures { result ≡ is_among name.now (spec.names_of ListSchedules) }
{
    name == "MaxResults"
        || name == "NamePrefix"
        || name == "NextToken"
        || name == "ScheduleGroup"
        || name == "State"
}

fn is_known_of_groups(name: &str) -> bool
    ensures { result ≡ is_among name.now (spec.names_of ListGroups) }
{
    name == "MaxResults" || name == "NamePrefix" || name == "NextToken"
}

fn is_known_of_letters(name: &str) -> bool
    ensures { result ≡ is_among name.now (spec.names_of ListLetters) }
{
    name == "Queue" || name == "After" || name == "MaxResults"
}

/// The path of a request target: what stands before its first question mark.
pub(crate) fn path_in(target: &[u8]) -> &[u8]
    ensures { result.now ≡ spec.path_in target.entry.now }
{
    match around(b'?', target) {
        Some((path, _)) => path,
        None => target,
    }
}

/// The query of a request target: what stands behind its first question mark, if there is one.
pub(crate) fn query_in(target: &[u8]) -> &[u8]
    ensures { result.now ≡ spec.query_in target.entry.now }
{
    match around(b'?', target) {
        Some((_, query)) => query,
        None => &[],
    }
}
