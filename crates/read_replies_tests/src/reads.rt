//! Each read of a book of no steps.
use crate::tellings::told;
use sched_calls::Read;
use sched_plain::{Name, Text};
use std::alloc::Global;
use std::process::Abort;

const DEFAULT_GROUP: &str =
    "{\"Arn\":\"arn:aws:scheduler:local:000000000000:schedule-group/default\",\"CreationDate\":0,\"LastModificationDate\":0,\"Name\":\"default\",\"State\":\"ACTIVE\"}";

const ALL_GROUPS: &str =
    "{\"ScheduleGroups\":[{\"Arn\":\"arn:aws:scheduler:local:000000000000:schedule-group/default\",\"CreationDate\":0,\"LastModificationDate\":0,\"Name\":\"default\",\"State\":\"ACTIVE\"}]}";

fn name_of(rt: &impl Abort, alloc: Global, text: &str) -> Name {
    Name::read(alloc, text.as_bytes()).expect(rt, "a name")
}

fn text_of(rt: &impl Abort, alloc: Global, text: &str) -> Text {
    Text::from_string(String::from_str(alloc, text).expect(rt, "memory"))
}

fn schedule(rt: &impl Abort, alloc: Global, group: &str) -> Read {
    Read::Schedule {
        group: name_of(rt, alloc, group),
        name: name_of(rt, alloc, "once"),
    }
}

fn group(rt: &impl Abort, alloc: Global, name: &str) -> Read {
    Read::Group {
        name: name_of(rt, alloc, name),
    }
}

/// Schedules of a group.
fn schedules(rt: &impl Abort, alloc: Global, group: &str) -> Read {
    Read::Schedules {
        group: Some(name_of(rt, alloc, group)),
        prefix: text_of(rt, alloc, ""),
        enabled: Some(true),
        after: None,
        max: 100,
    }
}

/// Schedules of all groups, behind a name.
fn schedules_behind(rt: &impl Abort, alloc: Global, group: &str) -> Read {
    Read::Schedules {
        group: None,
        prefix: text_of(rt, alloc, "o"),
        enabled: None,
        after: Some((name_of(rt, alloc, group), name_of(rt, alloc, "once"))),
        max: 1,
    }
}

fn groups(rt: &impl Abort, alloc: Global, prefix: &str) -> Read {
    Read::Groups {
        prefix: text_of(rt, alloc, prefix),
        after: None,
        max: 1,
    }
}

fn groups_behind(rt: &impl Abort, alloc: Global, name: &str) -> Read {
    Read::Groups {
        prefix: text_of(rt, alloc, ""),
        after: Some(name_of(rt, alloc, name)),
        max: 100,
    }
}

fn letters(rt: &impl Abort, alloc: Global, after: u64) -> Read {
    Read::Letters {
        queue: text_of(rt, alloc, "http://127.0.0.1:9000/dead"),
        after,
        max: 100,
    }
}

#[test]
fn a_schedule_is_looked_for_behind_its_group(rt: HostRuntime) {
    let alloc = rt.alloc();
    let here = told(&rt, alloc, &schedule(&rt, alloc, "default"));
    assert_eq!(rt; here.as_str(), "404 rule 10: default/once");
    let elsewhere = told(&rt, alloc, &schedule(&rt, alloc, "other"));
    assert_eq!(rt; elsewhere.as_str(), "404 rule 9: other");
}

#[test]
fn the_group_of_the_start_is_there(rt: HostRuntime) {
    let alloc = rt.alloc();
    let there = told(&rt, alloc, &group(&rt, alloc, "default"));
    assert_eq!(rt; there.as_str(), DEFAULT_GROUP);
    let elsewhere = told(&rt, alloc, &group(&rt, alloc, "defaul"));
    assert_eq!(rt; elsewhere.as_str(), "404 rule 9: defaul");
}

#[test]
fn an_empty_page_is_a_page(rt: HostRuntime) {
    let alloc = rt.alloc();
    let here = told(&rt, alloc, &schedules(&rt, alloc, "default"));
    assert_eq!(rt; here.as_str(), "{\"Schedules\":[]}");
    let behind = told(&rt, alloc, &schedules_behind(&rt, alloc, "other"));
    assert_eq!(rt; behind.as_str(), "{\"Schedules\":[]}");
    let elsewhere = told(&rt, alloc, &schedules(&rt, alloc, "other"));
    assert_eq!(rt; elsewhere.as_str(), "404 rule 9: other");
}

#[test]
fn groups_are_listed_without_a_refusal(rt: HostRuntime) {
    let alloc = rt.alloc();
    let all = told(&rt, alloc, &groups(&rt, alloc, "def"));
    assert_eq!(rt; all.as_str(), ALL_GROUPS);
    let none = told(&rt, alloc, &groups(&rt, alloc, "x"));
    assert_eq!(rt; none.as_str(), "{\"ScheduleGroups\":[]}");
    let before = told(&rt, alloc, &groups_behind(&rt, alloc, "a"));
    assert_eq!(rt; before.as_str(), ALL_GROUPS);
    let behind = told(&rt, alloc, &groups_behind(&rt, alloc, "default"));
    assert_eq!(rt; behind.as_str(), "{\"ScheduleGroups\":[]}");
}

#[test]
fn an_id_that_was_never_entered_is_named(rt: HostRuntime) {
    let alloc = rt.alloc();
    let never = told(
        &rt,
        alloc,
        &Read::Execution {
            inc: 1,
            instant: 1000,
        },
    );
    assert_eq!(rt; never.as_str(), "404 rule 10: 0000000100000000000003e8");
    let last = told(
        &rt,
        alloc,
        &Read::Execution {
            inc: u32::MAX,
            instant: u64::MAX,
        },
    );
    assert_eq!(rt; last.as_str(), "404 rule 10: ffffffffffffffffffffffff");
}

#[test]
fn letters_behind_the_last_one_are_none(rt: HostRuntime) {
    let alloc = rt.alloc();
    let first = told(&rt, alloc, &letters(&rt, alloc, 0));
    assert_eq!(rt; first.as_str(), "{\"Letters\":[]}");
    let last = told(&rt, alloc, &letters(&rt, alloc, u64::MAX));
    assert_eq!(rt; last.as_str(), "{\"Letters\":[]}");
}
