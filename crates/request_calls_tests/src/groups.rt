//! The creation of a group.
use crate::samples::check_request;
use std::alloc::Global;
use std::process::Abort;

/// Bodies, and what is answered to them.
const BODIES: &str = r#"{} | Write(CreateGroup { name: Name { text: "team" }, token: None })
{"ClientToken":null} | Write(CreateGroup { name: Name { text: "team" }, token: None })
{"ClientToken":"A-z_0"} | Write(CreateGroup { name: Name { text: "team" }, token: Some(Token { text: "A-z_0" }) })
{"ClientToken":""} | 400 rule 7: "ClientToken"
{"ClientToken":"a.b"} | 400 rule 7: "ClientToken"
{"ClientToken":7} | 400 rule 7: "ClientToken"
{"ClientToken":{"Zed":0}} | 400 rule 7: "ClientToken"
{"Tags":[]} | 400 rule 6: "Tags"
{"Name":"team"} | 400 rule 6: "Name"
{"b":0,"Zed":null,"ClientToken":7} | 400 rule 6: "Zed"
[] | 400 rule 5: "body""#;

fn check_line(rt: &impl Abort, alloc: Global, line: &str) {
    let (body, wanted) = line.split_once(" | ").expect(rt, "a line has two columns");
    check_request(
        rt,
        alloc,
        "POST /schedule-groups/team",
        body.as_bytes(),
        wanted,
    );
}

#[test]
fn a_group_has_a_name_and_a_token(rt: HostRuntime) {
    for line in BODIES.lines() {
        check_line(&rt, rt.alloc(), line);
    }
}

#[test]
fn its_name_is_looked_at_before_its_token(rt: HostRuntime) {
    let body = b"{\"ClientToken\":7}";
    check_request(
        &rt,
        rt.alloc(),
        "POST /schedule-groups/~",
        body,
        "400 rule 7: \"Name\"",
    );
}
