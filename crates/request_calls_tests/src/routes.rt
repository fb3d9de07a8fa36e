//! The routes: which call a method and a path ask for.
use crate::samples::{check_long, check_table, check_table_with, request_of, told};

/// Each route, with the least that it asks for.
const ROUTES: &str = r#"POST /schedules/a | 400 rule 7: "ScheduleExpression"
PUT /schedules/a | 400 rule 7: "ScheduleExpression"
GET /schedules/a | Read(Schedule { group: Name { text: "default" }, name: Name { text: "a" } })
DELETE /schedules/a | Write(DeleteSchedule { group: Name { text: "default" }, name: Name { text: "a" }, token: None })
GET /schedules | Read(Schedules { group: None, prefix: Text { text: "" }, enabled: None, after: None, max: 100 })
POST /schedule-groups/a | Write(CreateGroup { name: Name { text: "a" }, token: None })
GET /schedule-groups/a | Read(Group { name: Name { text: "a" } })
DELETE /schedule-groups/a | Write(DeleteGroup { name: Name { text: "a" }, token: None })
GET /schedule-groups | Read(Groups { prefix: Text { text: "" }, after: None, max: 100 })
GET /executions/0000000100000000000003e8 | Read(Execution { inc: 1, instant: 1000 })
GET /dead-letters?Queue=q | Read(Letters { queue: Text { text: "q" }, after: 0, max: 100 })
POST /sweep | Sweep"#;

/// Each place with each other method.
const OTHER_METHODS: &str = r#"POST /schedules | 404 rule 3: "/schedules"
PUT /schedules | 404 rule 3: "/schedules"
DELETE /schedules | 404 rule 3: "/schedules"
HEAD /schedules | 404 rule 3: "/schedules"
PATCH /schedules | 404 rule 3: "/schedules"
get /schedules | 404 rule 3: "/schedules"
HEAD /schedules/a | 404 rule 3: "/schedules/a"
PATCH /schedules/a | 404 rule 3: "/schedules/a"
get /schedules/a | 404 rule 3: "/schedules/a"
POST /schedule-groups | 404 rule 3: "/schedule-groups"
PUT /schedule-groups | 404 rule 3: "/schedule-groups"
DELETE /schedule-groups | 404 rule 3: "/schedule-groups"
HEAD /schedule-groups | 404 rule 3: "/schedule-groups"
PATCH /schedule-groups | 404 rule 3: "/schedule-groups"
get /schedule-groups | 404 rule 3: "/schedule-groups"
PUT /schedule-groups/a | 404 rule 3: "/schedule-groups/a"
HEAD /schedule-groups/a | 404 rule 3: "/schedule-groups/a"
PATCH /schedule-groups/a | 404 rule 3: "/schedule-groups/a"
get /schedule-groups/a | 404 rule 3: "/schedule-groups/a"
POST /executions/0000000100000000000003e8 | 404 rule 3: "/executions/0000000100000000000003e8"
PUT /executions/0000000100000000000003e8 | 404 rule 3: "/executions/0000000100000000000003e8"
DELETE /executions/0000000100000000000003e8 | 404 rule 3: "/executions/0000000100000000000003e8"
HEAD /executions/0000000100000000000003e8 | 404 rule 3: "/executions/0000000100000000000003e8"
PATCH /executions/0000000100000000000003e8 | 404 rule 3: "/executions/0000000100000000000003e8"
get /executions/0000000100000000000003e8 | 404 rule 3: "/executions/0000000100000000000003e8"
POST /dead-letters | 404 rule 3: "/dead-letters"
PUT /dead-letters | 404 rule 3: "/dead-letters"
DELETE /dead-letters | 404 rule 3: "/dead-letters"
HEAD /dead-letters | 404 rule 3: "/dead-letters"
PATCH /dead-letters | 404 rule 3: "/dead-letters"
get /dead-letters | 404 rule 3: "/dead-letters"
PUT /sweep | 404 rule 3: "/sweep"
GET /sweep | 404 rule 3: "/sweep"
DELETE /sweep | 404 rule 3: "/sweep"
HEAD /sweep | 404 rule 3: "/sweep"
PATCH /sweep | 404 rule 3: "/sweep"
get /sweep | 404 rule 3: "/sweep""#;

/// What looks like a route and is none.
const NO_ROUTES: &str = r#"GET / | 404 rule 3: "/"
GET * | 404 rule 3: "*"
GET schedules | 404 rule 3: "schedules"
GET /schedules/ | 404 rule 3: "/schedules/"
GET /schedules/?a | 404 rule 3: "/schedules/"
GET /schedules/a/b | 404 rule 3: "/schedules/a/b"
GET /schedules/a/ | 404 rule 3: "/schedules/a/"
GET /Schedules | 404 rule 3: "/Schedules"
GET /%73chedules | 404 rule 3: "/%73chedules"
GET /schedule-groups/ | 404 rule 3: "/schedule-groups/"
GET /executions | 404 rule 3: "/executions"
GET /executions/ | 404 rule 3: "/executions/"
GET /dead-letters/ | 404 rule 3: "/dead-letters/"
POST /sweep/ | 404 rule 3: "/sweep/"
POST //sweep | 404 rule 3: "//sweep"
POST http://localhost/sweep | 404 rule 3: "http://localhost/sweep"
GET /nowhere?MaxResults=1&MaxResults=2 | 404 rule 3: "/nowhere"
GET /"\ | 404 rule 3: "/\"\\""#;

/// Names and ids in a path, which is not decoded.
const SEGMENTS: &str = r#"GET /schedules/Az-09_. | name: Name { text: "Az-09_." }
GET /schedules/a%20b | 400 rule 7: "Name"
GET /schedules/a+b | 400 rule 7: "Name"
GET /schedules/~ | 400 rule 7: "Name"
GET /schedules/é | 400 rule 7: "Name"
PUT /schedules/~ | 400 rule 7: "Name"
DELETE /schedules/~ | 400 rule 7: "Name"
POST /schedule-groups/~ | 400 rule 7: "Name"
GET /schedule-groups/~ | 400 rule 7: "Name"
DELETE /schedule-groups/~ | 400 rule 7: "Name"
GET /executions/ffffffffffffffffffffffff | Read(Execution { inc: 4294967295, instant: 18446744073709551615 })
GET /executions/000000000000000000000000 | Read(Execution { inc: 0, instant: 0 })
GET /executions/0000000100000000000003E8 | 400 rule 7: "Id"
GET /executions/0000000100000000000003e | 400 rule 7: "Id"
GET /executions/0000000100000000000003e80 | 400 rule 7: "Id"
GET /executions/0000000100000000000003eg | 400 rule 7: "Id"
GET /executions/default | 400 rule 7: "Id""#;

/// Requests whose bodies are not looked at.
const NO_BODIES: &str = r#"GET /schedules | Read(Schedules {
GET /schedules/a | Read(Schedule {
DELETE /schedules/a | Write(DeleteSchedule {
GET /schedule-groups | Read(Groups {
GET /schedule-groups/a | Read(Group {
DELETE /schedule-groups/a | Write(DeleteGroup {
GET /executions/0000000100000000000003e8 | Read(Execution {
GET /dead-letters?Queue=q | Read(Letters {
POST /sweep?x=1&x=2 | Sweep
POST /nowhere | 404 rule 3: "/nowhere"
POST /schedules/a | 400 rule 5: "body"
POST /schedules/~ | 400 rule 5: "body"
PUT /schedules/a | 400 rule 5: "body"
POST /schedule-groups/a | 400 rule 5: "body""#;

#[test]
fn each_route_has_its_call(rt: HostRuntime) {
    check_table(&rt, rt.alloc(), ROUTES);
}

#[test]
fn each_other_method_has_no_route(rt: HostRuntime) {
    check_table(&rt, rt.alloc(), OTHER_METHODS);
}

#[test]
fn what_looks_like_a_route_is_none(rt: HostRuntime) {
    check_table(&rt, rt.alloc(), NO_ROUTES);
}

#[test]
fn a_path_is_shown_up_to_64_bytes(rt: HostRuntime) {
    let longest =
        "404 rule 3: \"/0123456789012345678901234567890123456789012345678901234567890aa\"";
    let halved =
        "404 rule 3: \"/012345678901234567890123456789012345678901234567890123456789é\u{fffd}\"";
    let front = "GET /0123456789012345678901234567890123456789012345678901234567890";
    let shorter = "GET /012345678901234567890123456789012345678901234567890123456789";
    check_long(&rt, rt.alloc(), front, "a", 2, longest);
    check_long(&rt, rt.alloc(), front, "a", 3, longest);
    check_long(&rt, rt.alloc(), front, "a", 300, longest);
    check_long(&rt, rt.alloc(), front, "é", 1, "7890é\"");
    check_long(&rt, rt.alloc(), front, "é", 2, "7890é\"");
    check_long(&rt, rt.alloc(), shorter, "é", 2, halved);
}

#[test]
fn names_and_ids_stand_in_the_path(rt: HostRuntime) {
    check_table(&rt, rt.alloc(), SEGMENTS);
    check_long(
        &rt,
        rt.alloc(),
        "GET /schedules/",
        "n",
        64,
        "Read(Schedule {",
    );
    check_long(
        &rt,
        rt.alloc(),
        "GET /schedules/",
        "n",
        65,
        "400 rule 7: \"Name\"",
    );
    check_long(
        &rt,
        rt.alloc(),
        "GET /schedule-groups/",
        "n",
        64,
        "Read(Group {",
    );
    check_long(
        &rt,
        rt.alloc(),
        "GET /schedule-groups/",
        "n",
        65,
        "400 rule 7: \"Name\"",
    );
}

#[test]
fn bodies_are_read_where_they_count(rt: HostRuntime) {
    check_table_with(&rt, rt.alloc(), NO_BODIES, b"{\xff");
}

#[test]
fn no_sweep_where_none_are_served(rt: HostRuntime) {
    let request = request_of(&rt, rt.alloc(), "POST", "/sweep", b"");
    let refused = told(&rt, rt.alloc(), &request, false);
    assert_eq!(rt; refused.as_str(), "404 rule 3: \"/sweep\"");
}
