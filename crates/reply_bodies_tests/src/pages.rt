//! The bodies of pages: of schedules, of groups, and of a queue's letters.
use crate::samples::{name_of, read_body, text_of};
use sched_calls::{GroupPage, LetterRow, LetterRows, ListRow, ListRows, Page, ReadReply};
use sched_plain::{GroupRow, GroupRows, Moment, Outcome};
use std::alloc::Global;
use std::process::Abort;

const TWO_SCHEDULES: &str =
    "{\"NextToken\":\"team/b\",\"Schedules\":[{\"Arn\":\"arn:aws:scheduler:local:000000000000:schedule/default/a\",\"CreationDate\":1,\"GroupName\":\"default\",\"LastModificationDate\":2,\"Name\":\"a\",\"State\":\"ENABLED\",\"Target\":{\"Arn\":\"http://localhost/\"}},{\"Arn\":\"arn:aws:scheduler:local:000000000000:schedule/team/b\",\"CreationDate\":1,\"GroupName\":\"team\",\"LastModificationDate\":2,\"Name\":\"b\",\"State\":\"DISABLED\",\"Target\":{\"Arn\":\"http://localhost/\"}}]}";

const LAST_SCHEDULE: &str =
    "{\"Schedules\":[{\"Arn\":\"arn:aws:scheduler:local:000000000000:schedule/default/a\",\"CreationDate\":1,\"GroupName\":\"default\",\"LastModificationDate\":2,\"Name\":\"a\",\"State\":\"ENABLED\",\"Target\":{\"Arn\":\"http://localhost/\"}}]}";

const ONE_GROUP: &str =
    "{\"Arn\":\"arn:aws:scheduler:local:000000000000:schedule-group/default\",\"CreationDate\":0,\"LastModificationDate\":0,\"Name\":\"default\",\"State\":\"ACTIVE\"}";

const TWO_GROUPS: &str =
    "{\"NextToken\":\"team\",\"ScheduleGroups\":[{\"Arn\":\"arn:aws:scheduler:local:000000000000:schedule-group/default\",\"CreationDate\":0,\"LastModificationDate\":0,\"Name\":\"default\",\"State\":\"ACTIVE\"},{\"Arn\":\"arn:aws:scheduler:local:000000000000:schedule-group/team\",\"CreationDate\":90,\"LastModificationDate\":90,\"Name\":\"team\",\"State\":\"ACTIVE\"}]}";

const THREE_LETTERS: &str =
    "{\"Letters\":[{\"ExecutionId\":\"0000000a000000000001518f\",\"Number\":7,\"Reason\":\"Final\",\"ScheduleArn\":\"arn:aws:scheduler:local:000000000000:schedule/team/b\"},{\"ExecutionId\":\"0000000a000000000001518f\",\"Number\":8,\"Reason\":\"Attempts\",\"ScheduleArn\":\"arn:aws:scheduler:local:000000000000:schedule/team/b\"},{\"ExecutionId\":\"0000000a000000000001518f\",\"Number\":9,\"Reason\":\"Age\",\"ScheduleArn\":\"arn:aws:scheduler:local:000000000000:schedule/team/b\"}]}";

fn row_of(rt: &impl Abort, alloc: Global, group: &str, name: &str, enabled: bool) -> ListRow {
    ListRow {
        group: name_of(rt, alloc, group),
        name: name_of(rt, alloc, name),
        created: Moment(1),
        changed: Moment(2),
        enabled,
        target: text_of(rt, alloc, "http://localhost/"),
    }
}

fn no_schedule(rt: &impl Abort, alloc: Global) -> ReadReply {
    ReadReply::Schedules(Page {
        rows: ListRows::new(alloc),
        more: false,
    })
}

fn last_schedule(rt: &impl Abort, alloc: Global) -> ReadReply {
    let mut rows = ListRows::new(alloc);
    rows.push(row_of(rt, alloc, "default", "a", true))
        .expect(rt, "memory");
    ReadReply::Schedules(Page { rows, more: false })
}

fn two_schedules(rt: &impl Abort, alloc: Global) -> ReadReply {
    let mut rows = ListRows::new(alloc);
    rows.push(row_of(rt, alloc, "default", "a", true))
        .expect(rt, "memory");
    rows.push(row_of(rt, alloc, "team", "b", false))
        .expect(rt, "memory");
    ReadReply::Schedules(Page { rows, more: true })
}

fn group_of(rt: &impl Abort, alloc: Global, name: &str, created: u64) -> GroupRow {
    GroupRow {
        name: name_of(rt, alloc, name),
        created: Moment(created),
    }
}

fn one_group(rt: &impl Abort, alloc: Global) -> ReadReply {
    ReadReply::Group(group_of(rt, alloc, "default", 0))
}

fn no_group(rt: &impl Abort, alloc: Global) -> ReadReply {
    ReadReply::Groups(GroupPage {
        groups: GroupRows::new(alloc),
        more: false,
    })
}

fn two_groups(rt: &impl Abort, alloc: Global) -> ReadReply {
    let mut groups = GroupRows::new(alloc);
    groups
        .push(group_of(rt, alloc, "default", 0))
        .expect(rt, "memory");
    groups
        .push(group_of(rt, alloc, "team", 90))
        .expect(rt, "memory");
    ReadReply::Groups(GroupPage { groups, more: true })
}

fn letter_of(rt: &impl Abort, alloc: Global, number: u64, reason: Outcome) -> LetterRow {
    LetterRow {
        number,
        inc: 10,
        instant: 86_415,
        reason,
        group: name_of(rt, alloc, "team"),
        name: name_of(rt, alloc, "b"),
    }
}

fn no_letter(rt: &impl Abort, alloc: Global) -> ReadReply {
    ReadReply::Letters(LetterRows::new(alloc))
}

fn three_letters(rt: &impl Abort, alloc: Global) -> ReadReply {
    let mut rows = LetterRows::new(alloc);
    rows.push(letter_of(rt, alloc, 7, Outcome::Final))
        .expect(rt, "memory");
    rows.push(letter_of(rt, alloc, 8, Outcome::Attempts))
        .expect(rt, "memory");
    rows.push(letter_of(rt, alloc, 9, Outcome::Age))
        .expect(rt, "memory");
    ReadReply::Letters(rows)
}

#[test]
fn an_empty_page_shows_no_schedule(rt: HostRuntime) {
    let body = read_body(&rt, rt.alloc(), no_schedule(&rt, rt.alloc()));
    assert_eq!(rt; body.as_slice(), b"{\"Schedules\":[]}".as_slice());
}

#[test]
fn the_last_page_has_no_token(rt: HostRuntime) {
    let body = read_body(&rt, rt.alloc(), last_schedule(&rt, rt.alloc()));
    assert_eq!(rt; body.as_slice(), LAST_SCHEDULE.as_bytes());
}

#[test]
fn a_page_names_its_last_schedule(rt: HostRuntime) {
    let body = read_body(&rt, rt.alloc(), two_schedules(&rt, rt.alloc()));
    assert_eq!(rt; body.as_slice(), TWO_SCHEDULES.as_bytes());
}

#[test]
fn a_group_is_active(rt: HostRuntime) {
    let body = read_body(&rt, rt.alloc(), one_group(&rt, rt.alloc()));
    assert_eq!(rt; body.as_slice(), ONE_GROUP.as_bytes());
}

#[test]
fn an_empty_page_shows_no_group(rt: HostRuntime) {
    let body = read_body(&rt, rt.alloc(), no_group(&rt, rt.alloc()));
    assert_eq!(rt; body.as_slice(), b"{\"ScheduleGroups\":[]}".as_slice());
}

#[test]
fn a_page_names_its_last_group(rt: HostRuntime) {
    let body = read_body(&rt, rt.alloc(), two_groups(&rt, rt.alloc()));
    assert_eq!(rt; body.as_slice(), TWO_GROUPS.as_bytes());
}

#[test]
fn a_queue_without_letters_shows_none(rt: HostRuntime) {
    let body = read_body(&rt, rt.alloc(), no_letter(&rt, rt.alloc()));
    assert_eq!(rt; body.as_slice(), b"{\"Letters\":[]}".as_slice());
}

#[test]
fn letters_show_their_reasons(rt: HostRuntime) {
    let body = read_body(&rt, rt.alloc(), three_letters(&rt, rt.alloc()));
    assert_eq!(rt; body.as_slice(), THREE_LETTERS.as_bytes());
}
