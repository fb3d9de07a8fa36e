//! The query: which names count, how they are spelled, and how often they come.
use crate::samples::{check_long, check_table};

const SPELLED: &str = r#"GET /schedules/a?groupName=g | group: Name { text: "g" }
GET /schedules/a?group%4eame=%67 | group: Name { text: "g" }
GET /schedules/a?&&groupName=g& | group: Name { text: "g" }
GET /schedules/a? | group: Name { text: "default" }
GET /schedules/a?GroupName=g | group: Name { text: "default" }
GET /schedules/a?groupName%20=g | group: Name { text: "default" }
GET /schedules/a?x=1&x=2&groupName=g&%ff=3 | group: Name { text: "g" }
GET /schedules/a?clientToken=.&clientToken=. | group: Name { text: "default" }
GET /schedules/a?groupName= | 400 rule 7: "groupName"
GET /schedules/a?groupName | 400 rule 7: "groupName"
GET /schedules/a?groupName=g=h | 400 rule 7: "groupName"
GET /schedules/a?groupName=g?h | 400 rule 7: "groupName"
GET /schedules/a?groupName=g%2fh | 400 rule 7: "groupName"
GET /schedules/a?groupName=g+h | 400 rule 7: "groupName"
GET /schedules/a?groupName=%ff | 400 rule 7: "groupName"
GET /schedules/a?groupName=%zz | 400 rule 7: "groupName"
GET /schedules/~?groupName=~ | 400 rule 7: "Name""#;

const TWICE: &str = r#"GET /schedules/a?groupName=g&groupName=g | 400 rule 4: "groupName"
GET /schedules/a?groupName=g&group%4eame=h | 400 rule 4: "groupName"
GET /schedules/a?groupName&groupName | 400 rule 4: "groupName"
GET /schedules/~?groupName=~&groupName=~ | 400 rule 4: "groupName"
DELETE /schedules/a?groupName=g&clientToken=t&clientToken=t&groupName=g | 400 rule 4: "clientToken"
DELETE /schedules/a?groupName=g&clientToken=t&groupName=g&clientToken=t | 400 rule 4: "groupName"
DELETE /schedule-groups/a?clientToken=t&clientToken=t | 400 rule 4: "clientToken"
GET /schedules?State=0&MaxResults=0&State=0 | 400 rule 4: "State"
GET /schedules?NamePrefix=a&NamePrefix=a | 400 rule 4: "NamePrefix"
GET /schedules?NextToken=a&NextToken=a | 400 rule 4: "NextToken"
GET /schedules?ScheduleGroup=a&ScheduleGroup=a | 400 rule 4: "ScheduleGroup"
GET /schedule-groups?MaxResults=1&MaxResults=1 | 400 rule 4: "MaxResults"
GET /schedule-groups?State=1&State=1 | Read(Groups {
GET /dead-letters?Queue=q&After=1&After=1 | 400 rule 4: "After"
GET /dead-letters?Queue=q&Queue=q | 400 rule 4: "Queue"
GET /schedule-groups/a?groupName=g&groupName=g | Read(Group {
GET /executions/0000000100000000000003e8?Id=1&Id=2 | Read(Execution {
POST /schedule-groups/a?clientToken=.&clientToken=. | Write(CreateGroup { name: Name { text: "a" }, token: None })"#;

const TOKENS: &str =
    r#"DELETE /schedules/a?clientToken=A-z_0&groupName=g | Write(DeleteSchedule { group: Name { text: "g" }, name: Name { text: "a" }, token: Some(Token { text: "A-z_0" }) })
DELETE /schedule-groups/a?clientToken=A-z_0 | Write(DeleteGroup { name: Name { text: "a" }, token: Some(Token { text: "A-z_0" }) })
DELETE /schedules/a?clientToken= | 400 rule 7: "clientToken"
DELETE /schedules/a?clientToken=a.b | 400 rule 7: "clientToken"
DELETE /schedules/a?groupName=~&clientToken=~ | 400 rule 7: "groupName"
DELETE /schedules/~?groupName=~&clientToken=~ | 400 rule 7: "Name"
DELETE /schedule-groups/a?clientToken=%20 | 400 rule 7: "clientToken"
DELETE /schedule-groups/~?clientToken=~ | 400 rule 7: "Name""#;

#[test]
fn names_are_compared_when_they_are_decoded(rt: HostRuntime) {
    check_table(&rt, rt.alloc(), SPELLED);
    check_long(
        &rt,
        rt.alloc(),
        "GET /schedules/a?groupName=",
        "n",
        64,
        "group: Name { text: \"nnn",
    );
    check_long(
        &rt,
        rt.alloc(),
        "GET /schedules/a?groupName=",
        "n",
        65,
        "7: \"groupName\"",
    );
}

#[test]
fn a_known_name_comes_once(rt: HostRuntime) {
    check_table(&rt, rt.alloc(), TWICE);
}

#[test]
fn a_deletion_may_have_a_token(rt: HostRuntime) {
    let front = "DELETE /schedule-groups/a?clientToken=";
    check_table(&rt, rt.alloc(), TOKENS);
    check_long(&rt, rt.alloc(), front, "t", 64, "Token { text: \"ttt");
    check_long(&rt, rt.alloc(), front, "t", 65, "7: \"clientToken\"");
}
